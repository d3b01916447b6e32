//! Tests of clients from texts up: what scripts and hooks answer to a trap.
#![tactic(auto)]

#[cfg(test)]
mod answers;
