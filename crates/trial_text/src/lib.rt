//! The text of a made bundle of any length: one thread writes pairs of a value and a flag, and another reads them in turn.
#![tactic(auto)]

mod parts;
mod trial;

pub use trial::trial_text;
