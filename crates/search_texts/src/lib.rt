//! The text of what a search found.
#![tactic(auto)]

mod texts;

pub use texts::{is_complete, search_text};
