//! What a run begins with: the heap of its globals, its first frames, and what its user brings. The laws of the first configuration
//! are here too.
#![tactic(auto)]

pub mod globals;

pub use globals::{RunInputs, first_heap};
