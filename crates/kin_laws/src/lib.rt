//! Types of two graphs that unfold alike, and what they have in common.
#![tactic(auto)]

mod laws;

pub use laws::{
    kin_have_as_many_leaves, kin_of_finite_types_are_finite, kin_of_the_same_type_are_the_same,
};
