// Why bundles are not joined.
ghost use Rattle.std.specs.Prelude.{◌≡◌};
ghost use Rattle.bundle_join.specs.declared.fault.JoinFault.TheVariants.{Memory};

use std::alloc::AllocError;
use std::fmt;
use thiserror::Error;

/// Why an item cannot go into the joined bundle.
#[derive(Clone, Copy, Debug, PartialEq, Eq, Error)]
pub enum JoinKind {
    /// An earlier bundle defines its name already.
    #[error("an earlier bundle defines the name")]
    Duplicate,
    /// An earlier bundle defines its name as another type.
    #[error("an earlier bundle has another type of this name")]
    OtherType,
    /// An earlier bundle defines its name as another signature, or gives the function another one.
    #[error("an earlier bundle has another signature of this name")]
    OtherSignature,
    /// The joined bundle has as many items as a bundle may have.
    #[error("one item too many")]
    TooMany,
}

/// Why bundles are not joined: the first item that cannot go into the joined bundle, or no memory was found.
#[derive(Clone, Copy, Debug, PartialEq, Eq)]
pub enum JoinFault {
    /// No memory was found.
    Memory,
    /// The item of that bundle, counted from 0, with the offset in its text where the fault stands.
    At {
        kind: JoinKind,
        bundle: u32,
        place: usize,
    },
}

impl From<AllocError> for JoinFault {
    ghost from_gives = { λ _ e. e ≡ Memory };

    fn from(_error: AllocError) -> Self {
        JoinFault::Memory
    }
}
