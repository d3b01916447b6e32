// What is wrong with names.
ghost use Rattle.std.specs.Prelude.{◌≡◌};
ghost use Rattle.demands.specs.declared.fault.Fault.TheVariants.{At};

use demands::Fault;
use ir_lex::Name;
use std::fmt;
use thiserror::Error;

/// What is wrong with a name.
#[derive(Clone, Copy, Debug, PartialEq, Eq, Error)]
pub enum NameKind {
    /// The name is defined before in its space.
    #[error("the name is defined before")]
    Duplicate,
    /// Nothing of the name is defined.
    #[error("nothing has this name")]
    Unknown,
    /// The name is that of something else than its place asks.
    #[error("the name is that of something else")]
    WrongKind,
}

/// Why the names of a bundle are refused: the first that is at fault, or out of memory.
pub type NameFault = Fault<NameKind>;

/// The fault of that kind at the name.
pub fn fault_at(kind: NameKind, name: &Name) -> NameFault
    ensures { result ≡ At kind name.now.place }
{
    NameFault::At {
        kind,
        place: name.place,
    }
}
