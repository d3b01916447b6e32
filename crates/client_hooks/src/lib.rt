//! What answers a trap: clients, hooks that are clients by a handler, and two clients one after the other.
//!
//! A trap gives a client a view of itself and the stack that was trapped. The client hands the stack back, with a reply or with the
//! reason why there is none.
#![tactic(auto)]

mod blank;
mod chain;
mod client;
mod copying;
mod determined;
mod hook;
mod laws;
mod notes;
mod plan;
mod reply;
mod view;

pub use blank::PassBlank;
pub use chain::Chain;
pub use client::Client;
pub use copying::copy_values;
pub use determined::{Determined, DeterminedHandler};
pub use hook::{Handler, Hook};
pub use laws::{blank_hooks_are_auto, hooks_go_on, hooks_resume};
pub use notes::{Notes, Watch, Watches};
pub use plan::{End, Plan};
pub use reply::{ClassedValue, ClientFault, Edit, NO_EDIT, Reply, ReplyEnd, With};
pub use view::TrapView;
