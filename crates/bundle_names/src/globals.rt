// What global names stand for.
use name_scopes::Scope;

/// What a global name is defined as, with its number: how many of that sort are defined before it in the text.
#[derive(Clone, Copy, Debug, PartialEq, Eq)]
pub enum Sort {
    /// A type.
    Written(u32),
    /// A signature.
    Signature(u32),
    /// A constant.
    Constant(u32),
    /// A global.
    GlobalCell(u32),
    /// A function, declared, defined or both; what counts is where its name comes first.
    Function(u32),
}

/// How many there are of each sort, and of the declarations and definitions of functions.
#[derive(Clone, Copy, Debug, PartialEq, Eq)]
pub struct Counts {
    pub written: u32,
    pub signatures: u32,
    pub constants: u32,
    pub global_cells: u32,
    pub functions: u32,
    pub declarations: u32,
    pub definitions: u32,
}

/// The global names of items.
#[derive(Drop)]
pub struct Globals {
    /// All names.
    pub names: Scope<Sort>,
    /// The functions that are declared, each with the number of its declaration among the declarations.
    pub declared: Scope<u32>,
    /// The functions that are defined, each with the number of its definition among the definitions.
    pub defined: Scope<u32>,
    pub counts: Counts,
}
