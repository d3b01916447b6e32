//! The machine: it runs checked code by the numbers in it, and each of its steps is the abstract machine's.
//!
//! A step goes this way. The endings that need no instruction come first: no thread is left, all wait, the budget is used up. Then a thread is
//! picked and lifted out of its seat, so that it is in hand with its stack (`seats`). Its instruction is decoded to an act
//! (`step_forms`), which is done: inside the thread (`thread_acts`), or between threads and stacks (`swap_acts`, `wake_acts`), or by the client's
//! answer (`trap_acts`). Last the thread is put down in its seat. A step that finds no memory leaves the machine as it was.
#![tactic(auto)]

mod acts;
mod at_once;
mod locals;
mod machine;
mod options;
mod step;

pub use machine::Machine;
