//! The parts of the act that makes a stack of a function. The act itself is in `thread_acts`.
#![tactic(auto)]

pub mod adding;
