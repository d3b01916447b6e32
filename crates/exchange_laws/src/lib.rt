//! Two neighbouring events of a log that are independent may be exchanged, and what a search may leave out for that reason.
#![tactic(auto)]

mod laws;

pub use laws::{both_still_fit, order_does_not_matter};
