//! The objects of a run: which there are, what their cells begin with, and which places of them are found from others.
#![tactic(auto)]

mod faults;
mod fitting;
mod heap;
mod laws;
mod moving;
mod objects;
mod places;

pub use faults::{HeapFault, PlaceFault};
pub use heap::Heap;
pub use laws::{
    calls_keep_leaves, changed_objects_fit, faults_of_each, new_objects_fit,
    taking_back_undoes_making, the_end_fits, what_fits_stays, what_is_found_fits,
};
pub use mu_values::CellId;
