//! The canonical text of a bundle, and the law that it reads back.
#![tactic(auto)]

mod accessing;
mod bodies;
mod common;
mod computing;
mod flow;
mod instructions;
mod items;
mod laws;
mod lists;
mod objects;
mod operators;
mod spellings;
mod stacks;
mod types;
mod words;

pub use items::print_bundle;
pub use laws::{items_read_back, reads_back};
