// Why something is refused.
ghost use Rattle.std.specs.Prelude.{◌≡◌};
ghost use Rattle.demands.specs.declared.fault.Fault.TheVariants.{Memory};

use std::alloc::AllocError;

/// Why something is refused that has to meet demands; `K` are the kinds of faults.
#[derive(Clone, Copy, Debug, PartialEq, Eq)]
pub enum Fault<K> {
    /// No memory was found.
    Memory,
    /// The first demand that is not met, with its place: the offset of a token's first byte.
    At { kind: K, place: usize },
}

impl<K> From<AllocError> for Fault<K> {
    ghost from_gives = { λ _ e. e ≡ Memory };

    fn from(_error: AllocError) -> Self {
        Fault::Memory
    }
}
