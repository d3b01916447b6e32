// What the global names of a bundle stand for, by number.
use crate::types::TypeTable;
use bundle_names::Globals;
use text_forms::Listing;

/// A signature, by classes of types.
#[derive(Drop)]
pub struct Signature {
    /// Its own class.
    pub class: u32,
    /// The class of the references to its functions.
    pub funcref: u32,
    /// The classes of its parameters.
    pub takes: Listing<u32>,
    /// The classes of its results.
    pub gives: Listing<u32>,
}

/// What the items of a bundle say, each sort of item by number.
#[derive(Drop)]
pub struct Tables {
    pub types: TypeTable,
    pub globals: Globals,
    pub signatures: Listing<Signature>,
    /// The class of each constant.
    pub constants: Listing<u32>,
    /// The class of each global as an operand, which is that of the references to places of its type.
    pub global_cells: Listing<u32>,
    /// The number of each function's signature.
    pub functions: Listing<u32>,
    /// The number of each declaration's signature.
    pub declarations: Listing<u32>,
}
