//! The well-typed configuration, and what holds of the abstract machine by it: no step is without a rule. This crate has no code of the
//! machine; each of its functions does nothing, and its contract is a law.
#![tactic(auto)]

mod laws;

pub use laws::{
    first_configuration_is_well_typed, logs_meet_the_axioms, logs_stay_printable,
    operands_fit_their_types, runs_have_an_ending, runs_stay_in_bounds, stacks_have_one_owner,
    steps_are_never_stuck,
};
