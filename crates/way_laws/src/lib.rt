//! Laws for users whose own clients answer by a way, and fit whenever what they are shown fits: no step of their runs is without a rule,
//! the logs are sound, each stack has one owner, and the runs end. This crate has no code of the machine; each of its functions does
//! nothing, and its contract is a law.
#![tactic(auto)]

mod laws;

pub use laws::{
    entries_fit, entry_answers_fit, moments_by_ways_are_sound, runs_by_entries_are_same,
    runs_by_ways_are_never_stuck, runs_by_ways_end,
};
