//! Bundles from their texts, one function for each form of the grammar.
#![tactic(auto)]

mod accesses;
mod blocks;
mod bodies;
mod common;
mod computing;
mod definitions;
mod fault;
mod flow;
mod instructions;
mod items;
mod kinds;
mod laws;
mod lines;
mod lists;
mod objects;
mod reading;
mod stacks;
mod types;
mod words;

pub use fault::TextFault;
pub use laws::{answer_is_one, body_is_as_written, bundle_is_as_written};
pub use reading::read_bundle;
