//! Tests of types and of values, by the calls that their crates offer: graphs whose answers are known, arithmetic, constants.
#![tactic(auto)]

#[cfg(test)]
mod graphs;
#[cfg(test)]
mod samples;
#[cfg(test)]
mod sketch;
#[cfg(test)]
mod values;
