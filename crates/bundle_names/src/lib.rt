//! Names of a bundle: each is defined once, and each use has a definition of the sort that its place asks.
#![tactic(auto)]

mod accesses;
mod blocks;
mod bodies;
mod common;
mod computations;
mod control;
mod definitions;
mod fault;
mod function_names;
mod globals;
mod items;
mod laws;
mod objects;
mod resolved;
mod resolving;
mod stacks;
mod uses;

pub use fault::{NameFault, NameKind};
pub use function_names::FunctionNames;
pub use globals::{Counts, Globals, Sort};
pub use laws::{accepted_meet_all, fault_is_of_one_list, fault_stands_behind_met_ones};
pub use resolved::Resolved;
pub use resolving::resolve;
