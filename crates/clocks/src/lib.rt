//! What is known of each thread, and where such clocks are kept: by threads, by numbers, and in lists that only grow.
#![tactic(auto)]

mod clock;
mod clock_list;
mod clock_table;
mod event_clocks;
mod kept_clocks;
mod thread_clocks;

pub use clock::Clock;
pub use clock_list::ClockList;
pub use clock_table::ClockTable;
pub use event_clocks::EventClocks;
pub use kept_clocks::{clock_under, keep_with};
pub use thread_clocks::ThreadClocks;
