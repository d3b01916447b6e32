//! The log of a text, or the text's first fault: `read_log`. It reads lines (`reading`, `lines`), their fields (`fields`), and what a
//! field means (`numbers`, `references`, `words`, `values`, `names`). Parts of a text stay where they stand in it.
#![tactic(auto)]

mod fields;
mod lines;
mod names;
mod numbers;
mod parts;
mod reading;
mod references;
mod values;
mod words;

pub use fields::LogFault;
pub use reading::read_log;
