//! What holds at each moment of a run of an accepted text: each operand of an instruction that is next has a value, which fits its type,
//! and each step is the turn of a thread that may be picked. This crate has no code; each of its functions does nothing, and its contract
//! is a law.
#![tactic(auto)]

mod laws;

pub use laws::{operands_have_values, steps_are_turns};
