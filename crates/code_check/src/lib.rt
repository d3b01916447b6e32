//! The check of instructions: their validation rules, and their code by numbers.
#![tactic(auto)]

mod accesses;
mod binding;
mod clauses;
mod commons;
mod computations;
mod control;
mod destinations;
mod gifts;
mod instructions;
mod objects;
mod operands;
mod stacks;

pub use binding::bind;
pub use control::are_classes;
pub use gifts::Gift;
pub use instructions::insts;
pub use operands::{demand, is_class, value_type};
