//! Which steps are local, so that no other thread can see them. This crate has no code.
#![tactic(auto)]
