// What stands before a token.

/// What stands before a token of a text of conditions.
#[derive(Clone, Copy, Debug, PartialEq, Eq)]
pub enum Before {
    /// Nothing, or the end of a condition
    Outside,
    /// The name of a thread, in a condition
    Thread,
    /// Another word
    Word,
    /// Anything else
    Else,
}
