// Early ends.
ghost use Rattle.std.specs.Prelude.{◌≡◌};
ghost use Rattle.mu_texts.specs.declared.stop.Stop.TheVariants.{Memory};

use mu_base::Status;
use std::alloc::AllocError;
use thiserror::Error;

/// An early end: a line that is the answer, or out of memory.
#[derive(Debug, Drop, Error)]
pub enum Stop {
    /// The words of a line, without its line feed, and the status that goes with it.
    #[error("a line with a status of its own")]
    Line(Vec<u8>, Status),
    /// No memory was found.
    #[error("out of memory")]
    Memory,
}

impl From<AllocError> for Stop {
    ghost from_gives = { λ _ stop. stop ≡ Memory };

    fn from(_: AllocError) -> Self {
        Stop::Memory
    }
}
