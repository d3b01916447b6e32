// What calls of a heap refuse.
ghost use Rattle.std.specs.Prelude.{◌≡◌};
ghost use Rattle.typed_heap.specs.declared.faults.HeapFault.TheVariants.{Memory};

use std::alloc::AllocError;
use thiserror::Error;

/// Why a place is not found, a cast not made, or a cell not there.
#[derive(Clone, Copy, Debug, PartialEq, Eq, Error)]
pub enum PlaceFault {
    /// The place is NULL.
    #[error("the place is NULL")]
    Null,
    /// The place is outside the object or its end, or what is wanted is not found there.
    #[error("the place is out of range")]
    OutOfRange,
    /// The object or the place does not fit the type.
    #[error("the reference does not fit the type")]
    BadCast,
    /// The cells of the object are dead.
    #[error("the cell is dead")]
    DeadCell,
}

/// Why an object is not made.
#[derive(Clone, Copy, Debug, PartialEq, Eq, Error)]
pub enum HeapFault {
    /// More cells are asked than are left. A number of cells above 2^128 - 1 stands as 2^128 - 1.
    #[error("{asked} cells are asked and {left} are left")]
    HeapFull { asked: u128, left: u32 },
    /// No memory was found.
    #[error("out of memory")]
    Memory,
}

impl From<AllocError> for HeapFault {
    ghost from_gives = { λ _ fault. fault ≡ Memory };

    fn from(_: AllocError) -> Self {
        HeapFault::Memory
    }
}
