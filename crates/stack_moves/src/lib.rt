//! How a thread leaves one stack and enters another: what is handed over, where the frames go on that are entered, and how frames are seen
//! as an edit is to leave them. A stack is looked at before anything changes, so that a refusal leaves all as it was.
#![tactic(auto)]

pub mod arriving;
pub mod edited;
pub mod lists;
pub mod moving;
