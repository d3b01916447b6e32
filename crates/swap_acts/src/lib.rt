//! Acts by which a thread leaves its stack for another one, or starts a thread on one. Each changes the state as the abstract machine's act
//! changes its configuration, or finds no memory and leaves the state as it was.
#![tactic(auto)]

pub mod entering;
pub mod starting;
