//! What a reader answers where it gives no value.

ghost use Rattle.text_forms.specs.declared.fault.ReadError.TheVariants.{Memory};
ghost use Rattle.std.specs.Prelude.{◌≡◌};

use std::alloc::AllocError;
use std::fmt;
use thiserror::Error;

/// Why a text is refused at a place.
#[derive(Clone, Copy, Debug, PartialEq, Eq, Error)]
pub enum FaultKind {
    /// A byte that begins no token, or a number in none of the spellings.
    #[error("no token begins with this byte")]
    BadByte,
    /// A sigil or a `.` that begins no name.
    #[error("no name follows this byte")]
    BadName,
    /// A number of 2^128 or more.
    #[error("the number is too large")]
    NumberTooLarge,
    /// A token of more than 65,536 bytes.
    #[error("the token is too long")]
    TooLong,
    /// A token, or the end, that no text of the grammar has here.
    #[error("unexpected here")]
    Unexpected,
    /// A word that the grammar knows here, and that the profile leaves out.
    #[error("not in this profile")]
    NotInProfile,
    /// An element past the limit of its list.
    #[error("one too many")]
    TooMany,
}

/// A fault of a text: its kind, and the offset of the byte where it stands. At the end that is the text's length.
#[derive(Clone, Copy, Debug, PartialEq, Eq)]
pub struct Fault {
    pub kind: FaultKind,
    pub place: usize,
}

/// Why a reader gives no value: memory ran out, or the text has a fault.
#[derive(Clone, Copy, Debug, PartialEq, Eq)]
pub enum ReadError {
    Memory,
    Fault(Fault),
}

impl From<AllocError> for ReadError {
    ghost from_gives = { λ _ e. e ≡ Memory };

    fn from(_e: AllocError) -> ReadError {
        ReadError::Memory
    }
}
