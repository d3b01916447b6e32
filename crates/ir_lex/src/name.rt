// Names and numbers of a text, with their places.
use crate::token::Number;
use text_forms::Listing;

/// A name as it stands in a text, with its sigil, and the offset of its first byte.
#[derive(Drop)]
pub struct Name {
    pub place: usize,
    pub text: Listing<u8>,
}

/// A number as it stands in a text, and the offset of its first byte.
#[derive(Clone, Copy, Debug, PartialEq, Eq)]
pub struct Numeral {
    pub place: usize,
    pub number: Number,
}
