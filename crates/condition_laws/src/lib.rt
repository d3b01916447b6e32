//! What the answers to conditions say of the runs of all schedules. This crate has no code of the machine.
#![tactic(auto)]

mod laws;

pub use laws::answers_speak_of_runs;
