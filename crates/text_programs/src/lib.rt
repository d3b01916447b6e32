//! A text that is read and accepted is a well-typed program, so that no step of its runs is without a rule. This crate has no code;
//! each of its functions does nothing, and its contract is a law.
#![tactic(auto)]

mod laws;

pub use laws::{
    bundles_that_are_read_have_blocks, endings_are_sound, entered_runs_have_an_ending,
    lines_do_not_mix, lines_tell_the_log, moments_are_printable, moments_are_small,
    moments_are_sound, plain_settings_fit, rule_stays, runs_are_numbered, runs_leave_sound_logs,
    texts_never_break,
};
