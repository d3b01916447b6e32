// The implied types.
use type_definitions::TypeDef;

/// An implied type.
#[derive(Clone, Copy, Drop)]
pub enum Implied {
    /// No value.
    Void,
    /// Integers of one bit.
    Int1,
    /// Integers of 32 bits.
    Int32,
    /// References to stacks.
    StackRef,
    /// References to threads.
    ThreadRef,
    /// References to objects of that type, which is written or void.
    RefTo(u32),
    /// References to places of that type, which is written or void.
    IrefTo(u32),
    /// References to functions of that signature, which is written.
    FuncRefTo(u32),
}

/// The whole graph, and for each written definition and for void the id of the first that refers to it.
#[derive(Drop)]
pub struct Whole {
    /// The definitions by id.
    pub all: Vec<TypeDef>,
    /// By the id of a written definition or of void the id of the first that refers to it.
    pub first: Vec<u32>,
}
