// A script as it is written. Each name, number and mark that a fault may stand at has its place: the offset of its first byte.
use crate::source_pieces::Pieces;
use ir_lex::{Name, Numeral};
use text_forms::Listing;

/// What a target begins with.
#[derive(Drop)]
pub enum Root {
    /// `$name`: an object of the script
    Object(Name),
    /// `@name`: a global of the bundle
    Global(Name),
}

/// `[ number ]`. Its place is that of the `[`.
#[derive(Clone, Copy, Debug, PartialEq, Eq)]
pub struct Index {
    pub place: usize,
    pub number: Numeral,
}

/// `root index*`
#[derive(Drop)]
pub struct Target {
    pub root: Root,
    pub indexes: Listing<Index>,
}

/// A source is a list of pieces, in the order of the text.
#[derive(Drop)]
pub enum Piece {
    /// A number
    Number(Numeral),
    /// `NULL`
    Null { place: usize },
    /// The name of a constant, a global or a function
    Global(Name),
    /// The name of an object
    Object(Name),
    /// `& root`. Its place is that of the `&`, and its indexes are the pieces behind it.
    Reference { place: usize, root: Root },
    /// An index of the reference before it
    Index(Index),
    /// `{`, with its place, and how many sources the list has. Their pieces are those behind it.
    List { place: usize, length: usize },
}

/// A command.
#[derive(Drop)]
pub enum Command {
    /// `.new object < of_type >`. Its place is that of the directive.
    New {
        place: usize,
        object: Name,
        of_type: Name,
    },
    /// `.newhybrid object < of_type > length`. Its place is that of the directive.
    NewHybrid {
        place: usize,
        object: Name,
        of_type: Name,
        length: Numeral,
    },
    /// `.init target = source`
    Init {
        target: Target,
        source: Pieces,
    },
}

/// A command up to the root of a reference that it ends with, or an index of that reference.
#[derive(Drop)]
pub enum Line {
    Command(Command),
    Index(Index),
}

/// A script.
pub type Hail = Listing<Command>;
