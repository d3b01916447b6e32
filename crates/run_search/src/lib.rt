//! The runs of a checked bundle, as a search goes through them: each is made by the picks that it is given, over a machine of its own.
#![tactic(auto)]

mod player;
mod playing;
mod zeros;

pub use player::{Player, Scripts};
