//! A search through all schedules as one call: reads its words, fetches its files, makes the runs, and writes what they come to.
#![tactic(auto)]

mod conditions_file;
mod finding;
mod options;
mod program;
mod search;
mod searching;
mod words;
mod writing;

pub use odometer::Watch;
pub use options::SearchOptions;
pub use program::explore;
pub use search::Search;
