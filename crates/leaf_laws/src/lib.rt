//! A law of searches that make fewer runs. This crate has no code of the machine.
#![tactic(auto)]

mod laws;

pub use laws::local_runs_are_among;
