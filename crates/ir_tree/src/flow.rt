// Instructions that say where the function goes on.
use crate::operands::{Arguments, Destination, ExceptionClause, Operand};
use ir_lex::Name;
use text_forms::Listing;

/// `constant destination`, in a `SWITCH`
#[derive(Drop)]
pub struct Case {
    pub constant: Name,
    pub destination: Destination,
}

/// An instruction that says where the function goes on, or that enters or leaves one.
#[derive(Drop)]
pub enum ControlFlow {
    /// `BRANCH destination`
    Branch {
        destination: Destination,
    },
    /// `BRANCH2 condition if_one if_zero`
    Branch2 {
        condition: Operand,
        if_one: Destination,
        if_zero: Destination,
    },
    /// `SWITCH < of_type > operand default { cases }`
    Switch {
        of_type: Name,
        operand: Operand,
        default: Destination,
        cases: Listing<Case>,
    },
    /// `CALL < signature > callee arguments exception KEEPALIVE ( keepalive )`
    Call {
        signature: Name,
        callee: Operand,
        arguments: Arguments,
        exception: Option<ExceptionClause>,
        keepalive: Option<Listing<Name>>,
    },
    /// `TAILCALL < signature > callee arguments`
    Tailcall {
        signature: Name,
        callee: Operand,
        arguments: Arguments,
    },
    /// `RET values`, where one value may stand without brackets
    Ret {
        values: Arguments,
    },
    /// `THROW exception`
    Throw {
        exception: Operand,
    },
}
