// Instructions that read and write memory.
use crate::operands::{ExceptionClause, Operand};
use crate::order::WrittenOrder;
use ir_lex::Name;
use mu_base::UpdateOp;

/// An instruction that reads or writes memory, or orders such accesses.
#[derive(Drop)]
pub enum Access {
    /// `LOAD order < of_type > location exception`
    Load {
        order: WrittenOrder,
        of_type: Name,
        location: Operand,
        exception: Option<ExceptionClause>,
    },
    /// `STORE order < of_type > location value exception`
    Store {
        order: WrittenOrder,
        of_type: Name,
        location: Operand,
        value: Operand,
        exception: Option<ExceptionClause>,
    },
    /// `CMPXCHG WEAK success failure < of_type > location expected desired exception`
    Cmpxchg {
        weak: bool,
        success: WrittenOrder,
        failure: WrittenOrder,
        of_type: Name,
        location: Operand,
        expected: Operand,
        desired: Operand,
        exception: Option<ExceptionClause>,
    },
    /// `ATOMICRMW order op < of_type > location operand exception`
    Atomicrmw {
        order: WrittenOrder,
        op: UpdateOp,
        of_type: Name,
        location: Operand,
        operand: Operand,
        exception: Option<ExceptionClause>,
    },
    /// `FENCE order`
    Fence {
        order: WrittenOrder,
    },
}
