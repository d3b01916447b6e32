//! The threads of a run: which stack each holds, which may make the next step, and the schedule that picks among them.
#![tactic(auto)]

mod reading;
mod schedule;
mod state;
mod threads;

pub use reading::{ScheduleFault, ScheduleKind, read_schedule};
pub use schedule::Schedule;
pub use state::ThreadState;
pub use threads::{AddFault, Threads};
