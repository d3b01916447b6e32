//! Clocks that are kept along a log, and the laws that join them to the memory model.
#![tactic(auto)]

mod laws;

pub use laws::{
    floor_by_clocks_is_the_floor, happens_before_is_a_clock_test, left_stack_carries_its_clock,
};
