//! Wakes: the threads that have waited longest at a cell go on, and so does the thread that wakes them. All that can fail comes before the
//! first change, so where no memory is found the state is as it was.
#![tactic(auto)]

pub mod wakes;
