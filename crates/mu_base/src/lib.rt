//! The outside of the machine, and the small types that every crate uses.
#![tactic(auto)]

mod failing;
mod file_inputs;
mod inputs;
mod lists;
mod memory_inputs;
mod memory_sink;
mod operators;
mod order;
mod sink;
mod status;
mod std_sink;
mod steps;
mod words;

pub use file_inputs::FileInputs;
pub use inputs::{FetchFault, Inputs};
pub use lists::{Ids, Items, Text, Types};
pub use memory_inputs::{File, MemoryInputs};
pub use memory_sink::MemorySink;
pub use operators::{BinaryOp, CompareOp, ConvertOp, UpdateOp};
pub use order::Order;
pub use sink::{PutFault, Sink};
pub use status::Status;
pub use std_sink::StdSink;
pub use steps::Steps;
pub use words::Words;
