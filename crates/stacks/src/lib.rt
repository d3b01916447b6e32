//! Stacks in typed states, and the directory that knows the state of each.
//!
//! A stack is ready, active on a thread, or dead. Its frames have one owner: the directory while it is ready, and else the
//! `ReadyStack`, the `OpenStack` or the `ActiveStack` that was made of it. These three are moved and never copied, and outside this
//! crate they come from a directory alone: `take` hands a stack out only where its state is ready, and makes the state active; `put_back` takes it in
//! again. So a stack is active on at most one thread.
#![tactic(auto)]

mod directory;
mod entered;
mod stack;
mod state;

pub use directory::Directory;
pub use entered::Entered;
pub use stack::{ActiveStack, Misfit, OpenStack, ReadyStack, Uncaught};
pub use state::{NotReady, StackState};
