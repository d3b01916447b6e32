// Instructions that compute a value from values.
use crate::operands::{ExceptionClause, Operand};
use ir_lex::{Name, Numeral};
use mu_base::{BinaryOp, CompareOp, ConvertOp};

/// An instruction that computes a value from values, and neither sees nor changes memory.
#[derive(Drop)]
pub enum Computation {
    /// `ADD < of_type > left right exception`, with any word of `BinaryOp`
    Binary {
        op: BinaryOp,
        of_type: Name,
        left: Operand,
        right: Operand,
        exception: Option<ExceptionClause>,
    },
    /// `EQ < of_type > left right`, with any word of `CompareOp`
    Compare {
        op: CompareOp,
        of_type: Name,
        left: Operand,
        right: Operand,
    },
    /// `TRUNC < from to > operand`, with any word of `ConvertOp`
    Convert {
        op: ConvertOp,
        from: Name,
        to: Name,
        operand: Operand,
    },
    /// `REFCAST < from to > operand`
    Refcast {
        from: Name,
        to: Name,
        operand: Operand,
    },
    /// `SELECT < condition_type of_type > condition if_one if_zero`
    Select {
        condition_type: Name,
        of_type: Name,
        condition: Operand,
        if_one: Operand,
        if_zero: Operand,
    },
    /// `EXTRACTVALUE < of_type field > operand`
    Extractvalue {
        of_type: Name,
        field: Numeral,
        operand: Operand,
    },
    /// `INSERTVALUE < of_type field > operand value`
    Insertvalue {
        of_type: Name,
        field: Numeral,
        operand: Operand,
        value: Operand,
    },
}
