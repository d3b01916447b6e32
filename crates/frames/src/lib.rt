//! The frames of a stack: where each stands, what it waits for, and which one catches an exception.
#![tactic(auto)]

mod frame;
mod frames;
mod unwound;

pub use frame::{Frame, Handler};
pub use frames::Frames;
pub use unwound::Unwound;
