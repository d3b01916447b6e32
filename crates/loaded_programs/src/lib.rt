//! What a script for the heap makes of an accepted bundle, and the entries of a client's script, are what a run may begin with. This
//! crate has no code; each of its functions does nothing, and its contract is a law.
#![tactic(auto)]

mod laws;

pub use laws::{
    cells_are_counted, loaded_settings_are_modest, loaded_settings_fit, scripts_begin_with_globals,
};
