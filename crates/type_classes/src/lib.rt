//! Judges the types of a bundle: which definitions are refused, which mean the same type, and what their leaves are.
#![tactic(auto)]

mod arguments;
mod blocks;
mod completing;
mod counting;
mod deciding;
mod edges;
mod endless;
mod gather;
mod graph;
mod judging;
mod listing;
mod moves;
mod naming;
mod plain;
mod preds;
mod ranking;
mod refine;
mod rows;
mod stable;

pub use deciding::classes;
pub use graph::TypeGraph;
