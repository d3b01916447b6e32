//! The outcome of a run, as text: how each thread ended, what each global of one cell holds at the end, and the ending. Of a run that is cut
//! short it is the ending alone, which of a race has the new event and not the number of the earlier one.
#![tactic(auto)]

mod globals;
mod texts;
mod writes;

pub use globals::{Final, finals};
pub use texts::seen_text;
