//! Names of one space with what they stand for, in the order of their definitions, and found in an ordered map.
#![tactic(auto)]

mod scope;

pub use scope::Scope;
