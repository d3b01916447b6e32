//! Validation rules in their order: the first that is not met is the fault.
#![tactic(auto)]

mod fault;
mod laws;

pub use fault::Fault;
pub use laws::{
    first_is_of_the_list, kinds_are_carried, met_where_none_is_first, unmet_stands_behind_met_ones,
};
