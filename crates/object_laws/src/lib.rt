//! What steps keep of the objects, of any program. This crate has no code of the machine; its function does nothing, and its contract is a
//! law.
#![tactic(auto)]

mod laws;

pub use laws::steps_keep_leaves;
