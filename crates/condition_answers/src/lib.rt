//! Answers to conditions over the outcomes of a search, by what these outcomes' texts say.
#![tactic(auto)]

mod answering;
mod lines;
mod numbers;
mod outcomes;
mod values;

pub use answering::{Answered, answer_all};
pub use outcomes::read_outcome;
