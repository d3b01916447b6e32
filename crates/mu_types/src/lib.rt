//! The types of a bundle as they are known once they are judged: their definitions, which of them are the same, and their leaves.
//! The crate `type_classes` finds all this; here is what crates above ask for, and what they may believe of it.
#![tactic(auto)]

mod faults;
mod implied;
mod limits;
mod table;

pub use faults::{TypeFault, TypeKind};
pub use implied::{Implied, Whole};
pub use limits::{LONGEST_ARRAY, MOST_LEAVES, WIDTHS};
pub use table::Classes;
pub use type_definitions::TypeDef;
