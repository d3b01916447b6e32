// What the items define that are no functions.
use ir_lex::{Name, Numeral};
use text_forms::Listing;

/// What a `.typedef` gives a name to.
#[derive(Drop)]
pub enum TypeForm {
    /// `int < width >`
    Int { width: Numeral },
    /// `struct < fields >`, with at least one field
    Struct { fields: Listing<Name> },
    /// `array < element length >`
    Array { element: Name, length: Numeral },
    /// `hybrid < fixed element >`
    Hybrid { fixed: Listing<Name>, element: Name },
    /// `void`
    Void,
    /// `ref < of_type >`
    Ref { of_type: Name },
    /// `iref < of_type >`
    Iref { of_type: Name },
    /// `funcref < signature >`
    Funcref { signature: Name },
    /// `stackref`
    Stackref,
    /// `threadref`
    Threadref,
}

/// What a `.const` gives a name to.
#[derive(Drop)]
pub enum Literal {
    /// A number
    Number(Numeral),
    /// `NULL`
    Null {
        place: usize,
    },
    /// `{ constants }`. Its place is that of the `{`.
    Members {
        place: usize,
        constants: Listing<Name>,
    },
}

/// `.typedef name = form`
#[derive(Drop)]
pub struct Typedef {
    pub place: usize,
    pub name: Name,
    pub form: TypeForm,
}

/// `.funcsig name = ( takes ) -> ( gives )`
#[derive(Drop)]
pub struct Funcsig {
    pub place: usize,
    pub name: Name,
    pub takes: Listing<Name>,
    pub gives: Listing<Name>,
}

/// `.const name < of_type > = literal`
#[derive(Drop)]
pub struct Const {
    pub place: usize,
    pub name: Name,
    pub of_type: Name,
    pub literal: Literal,
}

/// `.global name < of_type >`
#[derive(Drop)]
pub struct GlobalCell {
    pub place: usize,
    pub name: Name,
    pub of_type: Name,
}

/// `.funcdecl name < signature >`
#[derive(Drop)]
pub struct Funcdecl {
    pub place: usize,
    pub name: Name,
    pub signature: Name,
}
