//! Lists that a long run keeps: its events, the values of a cell, and accesses that are found by their numbers.
#![tactic(auto)]

mod access_index;
mod finding;
mod groups;
mod history;
mod past;
mod room;
mod runs;
mod scalar_order;
mod tape;

pub use access_index::{AccessIndex, Entry};
pub use history::History;
pub use tape::Tape;
