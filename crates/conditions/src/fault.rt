// Why a text of conditions is refused.
use demands::Fault;
use std::fmt;
use text_forms::FaultKind;
use thiserror::Error;

/// What is wrong with a text of conditions.
#[derive(Clone, Copy, Debug, PartialEq, Eq, Error)]
pub enum ConditionKind {
    /// A fault of the text: no token begins where one should, or no condition goes on with this token, or with the text's end. A number
    /// below 0 is `Unexpected`, and so is 2^32 or more behind a thread. Conditions have no words that are left out and no limits on
    /// lists, so `NotInProfile` and `TooMany` never come.
    #[error("{0}")]
    Text(FaultKind),
    /// The word is none of `exists`, `never` and `always` where one of them stands; no thread and no ending has it in a list; or no global
    /// of one cell has the name. A word of bundles or of client scripts, such as `LOAD` or `exit`, is `Unexpected` instead; `stop` may
    /// stand in a list only.
    #[error("nothing that may stand here has this name")]
    Unknown,
}

/// Why a text of conditions is refused: its first fault with its place, or out of memory.
pub type ConditionFault = Fault<ConditionKind>;
