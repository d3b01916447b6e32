// Why a script is refused.
use demands::Fault;
use std::fmt;
use text_forms::FaultKind;
use thiserror::Error;

/// What is wrong with the text of a script.
#[derive(Clone, Copy, Debug, PartialEq, Eq, Error)]
pub enum HailKind {
    /// A fault of the text: no token begins where one should, or no script goes on with this token, or with the text's end; or an
    /// index or a length is below 0, which is `Unexpected`. Scripts have no words that are left out and no limits on lists, so
    /// `NotInProfile` and `TooMany` never come.
    #[error("{0}")]
    Text(FaultKind),
    /// Nothing of the kind that belongs here has this name.
    #[error("nothing has this name")]
    Unknown,
    /// The object's name was given before.
    #[error("the name is given before")]
    Duplicate,
}

/// Why the text of a script is refused: its first fault with its place, or out of memory.
pub type HailFault = Fault<HailKind>;

/// What is wrong with a command.
#[derive(Clone, Copy, Debug, PartialEq, Eq, Error)]
pub enum LoadKind {
    /// A type that is not the one which belongs here, an index of what has no parts, or a source that does not fit.
    #[error("the type is wrong")]
    WrongType,
    /// An index without its part, or a number that does not fit its width.
    #[error("the number is out of range")]
    OutOfRange,
    /// More cells are asked than are left.
    #[error("the heap is full")]
    HeapFull,
}

/// Why a command is refused: its first fault with its place, or out of memory.
pub type LoadFault = Fault<LoadKind>;
