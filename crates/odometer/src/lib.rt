//! A search through all runs of something that makes picks. The runs come in the order in which an odometer counts: to get the picks of the
//! next run, the last pick that has a further option takes it, and all picks after that one begin again.
#![tactic(auto)]

mod noting;
mod picks;
mod searching;

pub use noting::note;
pub use picks::{Pick, advance};
pub use searching::{Play, Searched, Watch, search_all};
