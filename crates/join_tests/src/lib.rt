//! Tests of joined bundles: three texts are read and joined, and the joined one is printed or a fault named.
#![tactic(auto)]

#[cfg(test)]
mod three;
