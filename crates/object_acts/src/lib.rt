//! The parts of acts over objects: those that are made, of which a memory is told, and places that are found. The acts themselves are
//! in `thread_acts`.
#![tactic(auto)]

pub mod finding;
pub mod making;
