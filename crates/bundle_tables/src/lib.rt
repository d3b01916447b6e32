//! What the items of a bundle say, and the demands on those that are no functions.
#![tactic(auto)]

mod constants;
mod entries;
mod graph;
mod judging;
mod numbers;
mod rules;
mod types;

pub use constants::literal;
pub use judging::tables;
pub use numbers::type_id;
