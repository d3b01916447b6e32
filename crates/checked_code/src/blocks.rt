// Code that was checked, by number.
use crate::code::Code;
use text_forms::Listing;

/// A function.
#[derive(Clone, Copy, Debug, PartialEq, Eq)]
pub struct Function {
    /// The class of its signature.
    pub signature: u32,
    /// Its first block; none where it is only declared.
    pub first: Option<u32>,
    /// The item in which its name stands first.
    pub item: u32,
}

/// A block.
#[derive(Drop)]
pub struct BlockCode {
    /// The item of its function.
    pub item: u32,
    /// How many blocks of the function stand before it.
    pub at: u32,
    /// How many parameters it has: the first variables.
    pub parameters: usize,
    /// The variable that is its handler.
    pub handler: Option<u32>,
    /// The class of each variable: the parameters, the handler and the results, in text order.
    pub classes: Listing<u32>,
    pub code: Listing<Code>,
}
