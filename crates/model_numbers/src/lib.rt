//! A bundle by the numbers of its checked code is the bundle by its names. A run is said by names; a machine over checked code proves
//! what it does by numbers, and calls these laws where its contract speaks of names. This crate has no code.
#![tactic(auto)]

mod laws;

pub use laws::{
    bodies_are_of_definitions, doings_are_same, goings_on_are_same, handlers_are_same,
    labels_lead_to_blocks, locals_are_in_order, programs_are_same, runs_are_same, steps_are_same,
    tables_are_same, widths_are_written,
};
