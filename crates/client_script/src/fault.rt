// Why a script is refused.
use demands::Fault;
use std::fmt;
use text_forms::FaultKind;
use thiserror::Error;

/// What is wrong with the text of a script.
#[derive(Clone, Copy, Debug, PartialEq, Eq, Error)]
pub enum ScriptKind {
    /// A fault of the text: no token begins where one should, or no script goes on with this token, or with the text's end; or the
    /// number is below 0, or 2^32 or more, which is `Unexpected`. Scripts have no words that are left out and no limits on lists, so
    /// `NotInProfile` and `TooMany` never come.
    #[error("{0}")]
    Text(FaultKind),
    /// No constant, global or function has this name; after `push`, no function has it.
    #[error("nothing that may stand here has this name")]
    Unknown,
}

/// Why the text of a script is refused: its first fault with its place, or out of memory.
pub type ScriptFault = Fault<ScriptKind>;
