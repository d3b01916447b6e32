//! What types are: their definitions, when two of them are the same, what stands in a value of one, and the laws of this.
#![tactic(auto)]

mod definition;
mod laws;

pub use definition::TypeDef;
pub use laws::{
    classes_decide, classes_decide_leaves, leaves_are_scalar, leaves_respect_the_same_type,
    leaves_unfold, same_type_is_a_congruence, same_type_is_an_equivalence, same_type_is_steady,
    walks_can_be_cut,
};
