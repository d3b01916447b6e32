// What constants are written as.
use std::fmt;
use text_forms::Listing;
use thiserror::Error;

/// What a constant is written as.
#[derive(Drop)]
pub enum LiteralKind {
    /// A number: its absolute value, and whether it is below 0.
    Number {
        negative: bool,
        magnitude: u128,
    },
    /// `NULL`
    Null,
    /// Constants by number, each with the place where it is named.
    Members {
        constants: Listing<u32>,
        places: Listing<u32>,
    },
}

/// What a constant is written as, and the place where that stands.
#[derive(Drop)]
pub struct Literal {
    pub place: usize,
    pub kind: LiteralKind,
}

/// Why a literal is no constant of its type.
#[derive(Clone, Copy, Debug, PartialEq, Eq, Error)]
pub enum ConstKind {
    /// A number below -2^(w-1), or from 2^w up, for an int of w bits.
    #[error("the number does not fit the width")]
    OutOfWidth,
    /// A number for another type than an int; a list for another type than a struct or an array, or of another length; a member
    /// of another type.
    #[error("the literal has another shape than the type")]
    WrongShape,
    /// NULL for a type that is no reference.
    #[error("the type has no NULL")]
    NotNullable,
}

/// Why a literal is no constant of its type, and where.
#[derive(Clone, Copy, Debug, PartialEq, Eq, Error)]
#[error("{kind}, at byte {place}")]
pub struct ConstFault {
    pub kind: ConstKind,
    /// That of the literal, or of the member that does not fit.
    pub place: usize,
}
