//! Grammars as data, for every text form that the machine reads: what a grammar derives, how it is read, and which fault
//! of a text is the first; with the list type of the trees that readers build.
#![tactic(auto)]

mod fault;
mod laws;
mod limit;
mod listing;
mod symbol;

pub use fault::{Fault, FaultKind, ReadError};
pub use laws::{
    Grammar, derived_again, each_text_is_judged, first_fault_is_one, grammar_is_unambiguous,
    until_is_each, up_to_is_at_most, what_is_read_is_derived, what_is_refused_is_the_first_fault,
};
pub use limit::passes_limit;
pub use listing::Listing;
pub use symbol::Symbol;
