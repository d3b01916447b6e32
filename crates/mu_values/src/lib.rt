//! Values of the machine: scalars, integers, comparisons and constants.
#![tactic(auto)]

mod cells;
mod comparing;
mod constants;
mod integers;
mod laws;
mod literals;
mod made;
mod scalars;
mod slots;
mod updates;

pub use cells::CellId;
pub use comparing::compare;
pub use constants::judge_const;
pub use integers::{binary, convert, is_conversion};
pub use laws::{
    conversions_keep_the_width, results_keep_the_width, same_cell_is_equality,
    same_scalar_is_equality, updates_keep_the_width,
};
pub use literals::{ConstFault, ConstKind, Literal, LiteralKind};
pub use made::{Made, make_const};
pub use scalars::{Scalar, Value};
pub use slots::{Passed, Slots};
pub use updates::updated;
