//! What a memory keeps of a log in place of whole logs, and finds there by few looks: the values and accesses of each cell, and clocks. The
//! memory of runs and the judge of logs are made of it.
#![tactic(auto)]

mod cell;
mod families;
pub mod floors;
pub mod gains;
mod indexes;
pub mod kept_cells;
pub mod look_ups;
mod places;
pub mod racing;
mod rows;
mod touched;

pub use cell::CellViews;
pub use families::{Family, NextEvent};
pub use places::CellPlaces;
pub use rows::Rows;
pub use touched::CellAccesses;
