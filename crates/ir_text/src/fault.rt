//! Why a text is refused.
ghost use Rattle.std.specs.Prelude.{◌≡◌};
ghost use Rattle.ir_text.specs.declared.fault.TextFault.TheVariants.{Memory};
ghost use Rattle.ir_text.specs.TextAnswers.{refused};

use std::alloc::AllocError;
use std::fmt;
use text_forms::{Fault, FaultKind};
use thiserror::Error;

/// Why a text is refused.
#[derive(Clone, Copy, Debug, PartialEq, Eq, Error)]
pub enum TextFault {
    /// No memory was found.
    #[error("no memory")]
    Memory,
    /// The first fault, with its place: the offset of a token's first byte, or the text's length at its end.
    #[error("{kind}, at byte {place}")]
    At { kind: FaultKind, place: usize },
}

impl From<AllocError> for TextFault {
    ghost from_gives = { λ _ e. e ≡ Memory };

    fn from(_error: AllocError) -> Self {
        TextFault::Memory
    }
}

/// A fault of the grammar as a fault of the text.
pub fn refused(fault: Fault) -> TextFault
    ensures { result ≡ refused fault }
{
    TextFault::At {
        kind: fault.kind,
        place: fault.place,
    }
}
