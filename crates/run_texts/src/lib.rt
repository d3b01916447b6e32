//! The text of a run of the abstract machine: its lines, its ending, the pieces in which they are put, and the status. This crate has no
//! code.
#![tactic(auto)]
