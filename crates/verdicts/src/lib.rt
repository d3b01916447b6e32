//! The verdict on a log: what is first wrong with it by the axioms of memory, where the initial scalars of cells are not known. Definitions,
//! laws, and a judge over any type that keeps what is known of a log.
#![tactic(auto)]

mod judging;
mod laws;
mod named_events;
mod past;
mod types;

pub use judging::judge;
pub use laws::{
    pair_is_of_the_read, reads_break_below_the_floor, values_do_not_matter, yes_is_exact,
};
pub use named_events::{Knows, older, pair, passes_over};
pub use past::{Pair, Past};
pub use types::Verdict;
