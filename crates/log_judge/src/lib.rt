//! The judge of logs. It finds the verdict on a log by the histories and clocks that the memory of runs keeps, so that it looks at few events
//! for each, and at all of them only for the one that fails.
#![tactic(auto)]

mod ahead;
mod cell_map;
mod judging;
mod log_views;

pub use judging::judge;
