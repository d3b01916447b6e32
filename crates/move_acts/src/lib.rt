//! What the moves of the thread in hand log: the event of each option of its access, and of its fence.
#![tactic(auto)]

mod options;

pub use options::option_events;
