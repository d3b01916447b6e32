//! Tests of both memories over lists of events: what they offer, commit and refuse, against values that are written down.
#![tactic(auto)]

#[cfg(test)]
mod lists;
#[cfg(test)]
mod playing;
#[cfg(test)]
mod runs;
