//! The moves of threads in a search by sleep sets: which of them may be exchanged, and what sleeps behind a move. What sleeps is held as the
//! events of moves, since no other move sleeps.
#![tactic(auto)]

mod asleep;
mod exchange;

pub use asleep::{fall_asleep, is_asleep, is_same_event};
pub use exchange::may_exchange;
