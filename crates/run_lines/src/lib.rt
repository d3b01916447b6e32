//! The text that a run prints is read as its log, and the verdict on that log is Yes. This crate has no code: each of its functions does
//! nothing, and its contract is a law.
#![tactic(auto)]

mod laws;

pub use laws::{
    given_runs_are_judged, logs_are_readable, logs_get_yes, run_texts_are_read, runs_are_judged,
    runs_are_readable, texts_are_plain,
};
