// What is wrong with the text of a log, and the words of its event lines.
use mem_axioms::Mode;

/// What is wrong with the text of a log.
#[derive(Clone, Copy, Debug, PartialEq, Eq)]
pub enum LogKind {
    /// A byte of an event line that is not from 32 to 126.
    Lex,
    /// A field that has none of the forms that may stand there, or a field that is missing.
    Unexpected,
    /// A number that is out of range.
    BadNumber,
}

/// The third field of an event line, which says what happened.
#[derive(Clone, Copy, Debug, PartialEq, Eq)]
pub enum KindWord {
    /// `read`, `write` or `update`.
    Access { mode: Mode },
    /// `fence`.
    Fence,
    /// `stack`.
    NewStack,
    /// `thread`.
    NewThread,
    /// `leave`.
    Leave,
    /// `enter`.
    Enter,
    /// `wake`.
    Wake,
    /// `woken`.
    Woken,
}
