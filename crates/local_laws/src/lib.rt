//! Laws of searches that make local steps first. This crate has no code of the machine.
#![tactic(auto)]

mod laws;

pub use laws::{local_runs_go_on, local_searches_are_complete, local_steps_meet};
