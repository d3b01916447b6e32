// Why an answer is not made.
ghost use Rattle.std.specs.Prelude.{◌≡◌};

use std::alloc::AllocError;

/// Why an answer is not made.
#[derive(Clone, Copy, Debug, PartialEq, Eq)]
pub(crate) enum Refusal {
    /// It names a frame or a kept value that is not there, or a stack to enter whose type is not `stackref`.
    Misuse,
    /// No memory was found.
    Memory,
}

impl From<AllocError> for Refusal {
    ghost use Rattle.client_script.specs.declared.refusal.Refusal.TheVariants.{Memory};

    ghost from_gives = { λ _ refusal. refusal ≡ Memory };

    fn from(_e: AllocError) -> Refusal {
        Refusal::Memory
    }
}
