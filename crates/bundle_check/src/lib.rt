//! Checking of bundles.
#![tactic(auto)]

mod blocks;
mod bodies;
mod checking;
mod functions;
mod numbering;

pub use checking::{check, judge};
