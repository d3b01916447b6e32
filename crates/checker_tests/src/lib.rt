//! A test of the checker from a text up: what each call on a checked bundle answers.
#![tactic(auto)]

#[cfg(test)]
mod checked;
