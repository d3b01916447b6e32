//! What a machine keeps of a run, as definitions and laws, and what every act of a thread stands on. Here are the frames that go on,
//! wait or end, with the objects that end with them.
#![tactic(auto)]

pub mod exceptions;
pub mod flow;
pub mod objects;
pub mod results;
pub mod waiting;
