//! The parts of acts over memory: accesses, fences and waits in the words of a memory, which gets their events. The acts themselves are
//! in `thread_acts`.
#![tactic(auto)]

pub mod accessing;
pub mod counting;
pub mod futexes;
