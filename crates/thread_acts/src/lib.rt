//! The second half of a step, for acts that move no thread: the state of a run, and what the thread in hand does by itself. Each act changes
//! the state as the abstract machine's act changes its configuration. Their parts are in the crates below.
#![tactic(auto)]

mod accessing;
mod calls;
mod counting;
mod exceptions;
mod finding;
mod futexes;
mod giving;
mod globals;
mod making;
mod results;
pub mod state;
mod telling;
