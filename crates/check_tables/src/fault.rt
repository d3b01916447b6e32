// Why a bundle is refused whose names are all defined.
ghost use Rattle.std.specs.Prelude.{◌≡◌};
ghost use Rattle.demands.specs.declared.fault.Fault.TheVariants.{At};

use demands::Fault;
use mu_types::TypeKind;
use mu_values::ConstKind;
use std::fmt;
use thiserror::Error;

/// What is wrong with a bundle whose names are all defined.
#[derive(Clone, Copy, Debug, PartialEq, Eq, Error)]
pub enum CheckKind {
    /// A type is wrong.
    #[error("{0}")]
    Types(TypeKind),
    /// A constant is wrong.
    #[error("{0}")]
    Const(ConstKind),
    /// A type or an operand has not the type that is asked there.
    #[error("the type is not the one asked")]
    OperandType,
    /// The instruction has another number of results than it gives.
    #[error("another number of results is given")]
    ResultCount,
    /// A list of arguments has another length than is asked.
    #[error("another number of arguments is asked")]
    ArgumentCount,
    /// A member of a list of arguments has not the type that is asked.
    #[error("the argument has not the type asked")]
    ArgumentType,
    /// No parameter, handler or earlier result of the block has this name.
    #[error("the block has no such variable here")]
    NotLocal,
    /// The block does not end with an ending instruction.
    #[error("the block has no end")]
    NoEnding,
    /// An instruction stands behind one that ends its block.
    #[error("the block has ended before")]
    AfterEnding,
    /// The memory order is not allowed there.
    #[error("the memory order is not allowed")]
    BadOrder,
    /// A normal destination has a handler.
    #[error("the block takes an exception")]
    BadDestination,
    /// An index or the number of a watchpoint is out of range.
    #[error("the number is out of range")]
    BadIndex,
    /// A signature is not the one asked, or has a type that is not a value type.
    #[error("the signature is not allowed")]
    BadSignature,
    /// The parameters of a function's first block are not those of its signature.
    #[error("the parameters are not those of the signature")]
    EntryParameters,
}

/// Why a bundle is refused: the first demand that is not met, or out of memory.
pub type CheckFault = Fault<CheckKind>;

/// The fault of that kind at that place.
pub fn fault_at(kind: CheckKind, place: usize) -> CheckFault
    ensures { result ≡ At kind place }
{
    CheckFault::At { kind, place }
}
