//! Steps of the abstract machine over logs with two neighbouring independent events exchanged: each turn comes to the same, and two
//! independent accesses or fences of two threads may be made in either order.
#![tactic(auto)]

mod laws;

pub use laws::{independent_steps_commute, turns_are_alike};
