// What is wrong with a graph of types.
use demands::Fault;
use thiserror::Error;

/// What is wrong with a type.
#[derive(Clone, Copy, Debug, PartialEq, Eq, Error)]
pub enum TypeKind {
    /// The type contains itself through structs, arrays and hybrids.
    #[error("the type contains itself")]
    EndlessType,
    /// A width or a length that is not allowed, or a field or an element that is void or a hybrid.
    #[error("the argument is not allowed")]
    WrongArgument,
    /// The type has more leaves than are allowed.
    #[error("the type has too many leaves")]
    TooManyLeaves,
}

/// Why a graph of types is refused: the first demand that is not met, or out of memory. The place, as it was given to
/// `TypeGraph::add` of `type_classes`, is that of an argument for `WrongArgument`, and of the type's name for the others.
pub type TypeFault = Fault<TypeKind>;
