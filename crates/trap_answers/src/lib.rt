//! What comes of a trap: what the client is asked, and its answer in the machine's words.
#![tactic(auto)]

mod asking;
mod bringing;
mod editing;
mod lines;
mod watched;

pub use asking::ask;
pub use bringing::{bring, target};
pub use editing::{edit, edit_refusal};
pub use lines::trap_lines;
pub use watched::Watched;
