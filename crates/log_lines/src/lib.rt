//! The text of a log as definitions: what it is read as, and its first fault; with laws of the lines that a run prints. This crate has no
//! code yet that reads a text: each of its functions does nothing, and its contract is a law.
#![tactic(auto)]

mod laws;
mod types;

pub use laws::{event_lines_are_read, texts_are_read, values_are_replaced};
pub use types::{KindWord, LogKind};
