//! Casts that were good. A test of a cast may look at each leaf of an object; a machine keeps some that were good, and tests them no more.
#![tactic(auto)]

mod casts;

pub use casts::GoodCasts;
