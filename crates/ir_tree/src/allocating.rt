// Instructions that make objects.
use crate::operands::{ExceptionClause, Operand};
use ir_lex::Name;

/// An instruction that makes an object.
#[derive(Drop)]
pub enum Allocation {
    /// `NEW < of_type > exception`
    New {
        of_type: Name,
        exception: Option<ExceptionClause>,
    },
    /// `NEWHYBRID < of_type length_type > length exception`
    Newhybrid {
        of_type: Name,
        length_type: Name,
        length: Operand,
        exception: Option<ExceptionClause>,
    },
    /// `ALLOCA < of_type > exception`
    Alloca {
        of_type: Name,
        exception: Option<ExceptionClause>,
    },
}
