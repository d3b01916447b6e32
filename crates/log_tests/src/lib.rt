//! Tests of the texts of logs.
#![tactic(auto)]

#[cfg(test)]
mod reading;
