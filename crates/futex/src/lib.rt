//! The threads that wait at cells, oldest first.
#![tactic(auto)]

mod waiters;
mod woken;

pub use waiters::{Waiter, Waiters};
pub use woken::Woken;
