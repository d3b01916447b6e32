//! The first half of a step: from an instruction to its act. There is one function for each form: from the values of a block's variables
//! it makes what the instruction is to do. Nothing is changed here but the room that is lent for lists.
#![tactic(auto)]

mod access;
mod accessing;
mod act;
mod at_once;
mod case_rows;
mod common;
mod computing;
mod control;
mod deciding;
mod entering;
mod frame_view;
mod laws;
mod objects;
mod operands;
mod parts;
mod room;
mod stack_forms;
mod trapping;
mod variables;
mod way;

pub use access::Access;
pub use act::Act;
pub use at_once::{AtOnce, decide_at_once};
pub use case_rows::CaseRows;
pub use deciding::decide;
pub use entering::Entering;
pub use frame_view::FrameView;
pub use laws::forms_are_there;
pub use operands::{
    copy_classes, push_value, read_classes, read_goal, read_kept, read_values, scalar,
};
pub use room::Room;
pub use variables::Variables;
pub use way::Way;
