//! Edits of a stack that no thread runs on: frames are popped from it, and one is pushed.
//!
//! `EditRoom` is the room for an edit: all that an edit needs of memory is taken when the room is made, so that `pop_to` and `push` take
//! none. Either hands the stack back where it refuses.
#![tactic(auto)]

mod editing;
mod laws;
mod pushing;
mod room;

pub use editing::{NoFrame, pop_to};
pub use laws::{edits_are_abstract_edits, edits_keep_frames_well_typed};
pub use pushing::{PushFault, has_results, parameters_of, push, results_of};
pub use room::EditRoom;
