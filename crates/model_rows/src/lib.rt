//! Runs of bundles, computed from their texts by the definitions of the abstract machine. This crate has no code.
#![tactic(auto)]
