//! What the demands on code are judged by: types by their classes, and what the global names of a bundle stand for.
#![tactic(auto)]

mod fault;
mod forms;
mod laws;
mod lookups;
mod tables;
mod types;

pub use fault::{CheckFault, CheckKind, fault_at};
pub use forms::Field;
pub use laws::implied_types_are_defined;
pub use tables::{Signature, Tables};
pub use types::TypeTable;
