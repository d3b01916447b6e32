//! A search by sleep sets through the runs in which local steps come first: it leaves out runs and loses no outcome. This crate has no code
//! of the machine.
#![tactic(auto)]

mod laws;

pub use laws::{sleep_searches_are_complete, sleeping_runs_are_among, sleeping_runs_go_on};
