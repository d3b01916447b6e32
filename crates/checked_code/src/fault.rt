// Why a name is no entry.
use std::fmt;
use thiserror::Error;

/// Why a name is no entry of a bundle.
#[derive(Clone, Copy, Debug, PartialEq, Eq, Error)]
pub enum EntryFault {
    /// No function has the name.
    #[error("no function has this name")]
    Unknown,
    /// The function has parameters.
    #[error("the function has parameters")]
    BadSignature,
    /// The function is only declared.
    #[error("the function has no body")]
    NoBody,
}
