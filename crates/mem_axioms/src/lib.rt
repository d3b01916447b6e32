//! The memory of a run: its events, its axioms, and the memory that judges whole logs.
#![tactic(auto)]

mod cell_values;
pub mod event_facts;
mod event_log;
mod laws;
mod log_memory;
mod memory;
mod racing;
mod read_test;
mod rows;
mod synchronizing;
mod types;

pub use event_log::Log;
pub use laws::{
    accessed_initials_matter, axioms_are_kept, axioms_are_relations, choices_differ,
    choices_may_be_taken, earlier_order_stays, fitting_events_stay_sound, happens_before_is_least,
    least_race_is_named, logs_were_built, more_objects_change_nothing, newest_is_an_option,
    next_events_fit, options_reach_a_floor, others_do_not_race, released_position_is_allowed,
    threads_and_wakes_stay, values_are_written,
};
pub use log_memory::LogMemory;
pub use memory::Memory;
pub use types::{Chosen, Event, Kind, Mode, Race, Room, Rule, Wanted};
