//! An accepted bundle is a well-typed program, so that no step of its runs is without a rule. This crate has no code; each of its
//! functions does nothing, and its contract is a law.
#![tactic(auto)]

mod laws;

pub use laws::{
    accepted_bundles_are_typed, numbered_bundles_are_typed, plain_runs_never_break,
    runs_never_break,
};
