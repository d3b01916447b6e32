// Tokens.
use std::fmt;
use thiserror::Error;

/// What a token is.
#[derive(Clone, Copy, Debug, PartialEq, Eq)]
pub enum TokenKind {
    /// `@` and the name of something global.
    Global,
    /// `%` and the name of something local.
    Local,
    /// `$` and the name of an object.
    Object,
    /// `.` and a word.
    Directive,
    /// A word.
    Word,
    /// A number.
    Number,
    /// A mark.
    Mark(Mark),
}

/// The marks.
#[derive(Clone, Copy, Debug, PartialEq, Eq)]
pub enum Mark {
    /// `(`
    Open,
    /// `)`
    Close,
    /// `{`
    OpenBrace,
    /// `}`
    CloseBrace,
    /// `<`
    Less,
    /// `>`
    Greater,
    /// `[`
    OpenBracket,
    /// `]`
    CloseBracket,
    /// `=`
    Equals,
    /// `:`
    Colon,
    /// `&`
    Ampersand,
    /// `->`
    Arrow,
}

/// A token, with the offsets of its first byte and of the byte behind its last.
#[derive(Clone, Copy, Debug, PartialEq, Eq)]
pub struct Token {
    pub kind: TokenKind,
    pub from: usize,
    pub to: usize,
}

/// Why no token begins where one should.
#[derive(Clone, Copy, Debug, PartialEq, Eq, Error)]
pub enum LexKind {
    /// A byte that begins no token, or a run of letters and digits that spells no number.
    #[error("no token begins with this byte")]
    BadByte,
    /// A sigil or a dot that begins no name.
    #[error("no name follows this byte")]
    BadName,
    /// A number of 2^128 or more.
    #[error("the number is too large")]
    NumberTooLarge,
    /// More than 65,536 bytes.
    #[error("the token is too long")]
    TooLong,
}

/// A place where no token begins, as a byte offset.
#[derive(Clone, Copy, Debug, PartialEq, Eq, Error)]
#[error("{kind}, at byte {place}")]
pub struct LexFault {
    pub kind: LexKind,
    pub place: usize,
}

/// What a number token stands for. It is negative only where the magnitude is not 0.
#[derive(Clone, Copy, Debug, PartialEq, Eq)]
pub struct Number {
    pub negative: bool,
    pub magnitude: u128,
}
