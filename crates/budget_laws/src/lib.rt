//! Laws of runs at greater budgets. This crate has no code of the machine.
#![tactic(auto)]

mod laws;

pub use laws::{ended_runs_stay, outcomes_stay};
