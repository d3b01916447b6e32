//! Threads on their stacks, and those that wait, in one container.
#![tactic(auto)]

mod asking;
mod moves;
mod seats;
mod waits;

pub use asking::Asks;
pub use seats::Seats;
