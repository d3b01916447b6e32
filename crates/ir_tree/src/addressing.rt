// Instructions that find a place in an object.
use crate::operands::Operand;
use ir_lex::{Name, Numeral};

/// An instruction that finds a place in an object, without a look at what is there.
#[derive(Drop)]
pub enum Addressing {
    /// `GETIREF < of_type > reference`
    Getiref {
        of_type: Name,
        reference: Operand,
    },
    /// `GETFIELDIREF < of_type field > location`
    Getfieldiref {
        of_type: Name,
        field: Numeral,
        location: Operand,
    },
    /// `GETELEMIREF < of_type index_type > location index`
    Getelemiref {
        of_type: Name,
        index_type: Name,
        location: Operand,
        index: Operand,
    },
    /// `SHIFTIREF < of_type offset_type > location offset`
    Shiftiref {
        of_type: Name,
        offset_type: Name,
        location: Operand,
        offset: Operand,
    },
    /// `GETVARPARTIREF < of_type > location`
    Getvarpartiref {
        of_type: Name,
        location: Operand,
    },
}
