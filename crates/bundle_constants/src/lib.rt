//! The values of the constants of a bundle.
#![tactic(auto)]

mod bundle;
mod constants;
mod making;

pub use bundle::values;
