//! The memory for runs: histories, indexes and clocks in place of whole logs. It keeps the contract of the trait `Memory`,
//! and each call looks at few entries of histories and indexes.
//!
//! # Two memories
//!
//! `LogMemory` of `mem_axioms` judges each read on the whole log: it is the text of the rules, and slow. `ViewMemory` has the same
//! contract, so it gives the same options, choices and races, and never looks at the log again.
//!
//! A clock has a number for each of 64 threads. It knows those events of a thread whose numbers in the log are below the thread's number in
//! it. Before an event, its thread's clock is joined with the one that the event gets: for an acquire what its position released, for an
//! acquire fence what earlier atomic reads of its thread left, for an `enter` the stack's, for a `woken` the wake's. What this join knows
//! happens before the event, and races are judged by it. Then the event gives its clock: to its stack, its wake, its position, the thread
//! that it makes. That two events are SEQ_CST joins no clocks.
//!
//! | Clock | What it knows |
//! |---|---|
//! | of a thread | what happens before whatever the thread does next |
//! | of a stack; of a wake | what its last leaving or making knew; what the wake knew |
//! | of a position of a cell | what an acquire of the position gets: the releases whose sequences have it |
//! | of a cell and a thread | the same of the newest position, of heads by that thread only, so one sequence can go on while others end |
//! | of a thread, at its last release fence | what an atomic write after it gives, where the write is no release |
//! | of a thread, pending | what its atomic reads left for its next acquire fence |
//! | of all SEQ_CST fences, and of those before each such fence | what raises the floor of a load after the fence |
//!
//! The floor of a load is found by three look-ups for each thread u. It is the greatest position of u's last access that the loading thread
//! knows; of u's last SEQ_CST access before the load, or, if the load is not SEQ_CST, before the last SEQ_CST fence that it knows; and of
//! u's last access that is known to some SEQ_CST fence before that same point. A race is found by one look-up for each other thread. The
//! laws of `clock_laws` say that clocks decide happens-before, and that this floor is the floor of the axioms.
#![tactic(auto)]

mod adding;
mod places;
mod view_memory;

pub use clocks::Clock;
pub use view_memory::ViewMemory;
