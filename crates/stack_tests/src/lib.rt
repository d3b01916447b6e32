//! Tests of threads and their stacks, of schedules and of waits, by the calls that each crate offers.
#![tactic(auto)]

#[cfg(test)]
mod full;
#[cfg(test)]
mod picks;
#[cfg(test)]
mod stacks_made;
#[cfg(test)]
mod swaps;
#[cfg(test)]
mod waits;
