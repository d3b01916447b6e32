//! What the program answers, row by row: tests of `mu_command::mu` over files in memory, and nothing else.
#![tactic(auto)]

#[cfg(test)]
mod bounds;
#[cfg(test)]
mod calls;
#[cfg(test)]
mod clients;
#[cfg(test)]
mod edits;
#[cfg(test)]
mod faults;
#[cfg(test)]
mod joins;
#[cfg(test)]
mod judged;
#[cfg(test)]
mod objects;
#[cfg(test)]
mod refusals;
#[cfg(test)]
mod refused_swaps;
#[cfg(test)]
mod replies;
#[cfg(test)]
mod swaps;
#[cfg(test)]
mod tests;
#[cfg(test)]
mod threads;
#[cfg(test)]
mod waits;
