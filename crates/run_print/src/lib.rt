//! The text of a run of the abstract machine: its lines, its ending, and the status that goes with the ending.
#![tactic(auto)]

mod endings;
mod events;
mod lines;
mod names;
mod numbers;
mod records;
mod values;

pub use endings::{ending_status, ending_text, ending_words};
pub use events::spaced_kind;
pub use lines::{line_text, lines_text};
pub use records::record_text;
pub use values::spaced_scalar;
