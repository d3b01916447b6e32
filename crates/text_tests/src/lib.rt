//! Tests of texts: where they come from and go to, their tokens, a small bundle that is read, one that is printed, and the text of a
//! trial. Other texts are shown by the cases of the whole program.
#![tactic(auto)]

#[cfg(test)]
mod outside;
#[cfg(test)]
mod printing;
#[cfg(test)]
mod reading;
#[cfg(test)]
mod tokens;
#[cfg(test)]
mod trial;
