//! The abstract machine: what a run of a bundle is. This crate has no code of the machine. It has the definitions by which a run is
//! told, and the types that the machine shares with what prints and judges its runs.
#![tactic(auto)]

mod endings;
mod lines;
mod shared;

pub use endings::{Case, Ending, Raced, StepEnd};
pub use lines::{Line, Lines, Note};
pub use shared::SharedValues;
