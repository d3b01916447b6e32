//! What bundles joined to one are: what is said again is left out, what is said otherwise is refused, and all else is kept.
#![tactic(auto)]

mod alike;
mod fault;
mod joining;
mod judging;
mod kept;
mod verdict;

pub use fault::{JoinFault, JoinKind};
pub use joining::join;
pub use verdict::Verdict;
