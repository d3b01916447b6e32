//! Tests of scripts from the texts up: what loading one answers, and what the heap holds then.
#![tactic(auto)]

#[cfg(test)]
mod loads;
