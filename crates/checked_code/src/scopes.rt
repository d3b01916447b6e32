// What the names in a function stand for.
use name_scopes::Scope;
use text_forms::Listing;

/// A variable of a block: its number, and the class of its type.
#[derive(Clone, Copy, Debug, PartialEq, Eq)]
pub struct Variable {
    pub number: u32,
    pub class: u32,
}

/// The variables of a block so far: by name, and the class of each by number.
#[derive(Drop)]
pub struct Locals {
    pub names: Scope<Variable>,
    pub classes: Listing<u32>,
}

/// A block as a destination: its number over the whole bundle, the classes of its parameters, and whether it has a handler.
#[derive(Drop)]
pub struct BlockEntry {
    pub number: u32,
    pub takes: Listing<u32>,
    pub has_handler: bool,
}

/// What the instructions of a function may use: its blocks, and what the function gives.
#[derive(Drop)]
pub struct Body {
    pub blocks: Scope<BlockEntry>,
    pub gives: Listing<u32>,
}
