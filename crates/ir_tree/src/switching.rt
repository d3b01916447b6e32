// Instructions that go from one stack to another.
use crate::operands::{ExceptionClause, NewStackClause, Operand};
use ir_lex::Name;
use text_forms::Listing;

/// An instruction that enters another stack, or starts a thread on one.
#[derive(Drop)]
pub enum StackSwitch {
    /// `SWAPSTACK stack RET_WITH < types > entered exception KEEPALIVE ( keepalive )`: the stack that is left waits for values of these types
    SwapReturning {
        stack: Operand,
        types: Listing<Name>,
        entered: NewStackClause,
        exception: Option<ExceptionClause>,
        keepalive: Option<Listing<Name>>,
    },
    /// `SWAPSTACK stack KILL_OLD entered`: the stack that is left is dead
    SwapKilling {
        stack: Operand,
        entered: NewStackClause,
    },
    /// `NEWTHREAD stack THREADLOCAL ( threadlocal ) entered exception`
    Newthread {
        stack: Operand,
        threadlocal: Option<Operand>,
        entered: NewStackClause,
        exception: Option<ExceptionClause>,
    },
}
