//! A bundle as it is written, and the grammar of its text. Each name, number and list that a fault may stand at has its place:
//! the offset of its first byte.
#![tactic(auto)]

mod accessing;
mod addressing;
mod allocating;
mod code;
mod common;
mod computing;
mod definitions;
mod flow;
mod items;
mod laws;
mod operands;
mod order;
mod switching;
mod trapping;

pub use accessing::Access;
pub use addressing::Addressing;
pub use allocating::Allocation;
pub use code::{Block, BlockHead, Inst, Line, Op, Parameter};
pub use common::CommonInst;
pub use computing::Computation;
pub use definitions::{Const, Funcdecl, Funcsig, GlobalCell, Literal, TypeForm, Typedef};
pub use flow::{Case, ControlFlow};
pub use items::{Bundle, Funcdef, Item};
pub use laws::bundle_is_grammar;
pub use operands::{Arguments, Destination, ExceptionClause, NewStackClause, Operand};
pub use order::WrittenOrder;
pub use switching::StackSwitch;
pub use trapping::Trapping;
