// The lists that a step works in.

use mu_values::Slots;
use std::alloc::Global;
use step_forms::Room;

/// The lists that a step works in. What they hold between steps means nothing.
#[derive(Drop)]
pub struct Lists {
    /// Operands, and what is handed on of them.
    pub room: Room,
    /// What the variables of a frame become that goes on elsewhere.
    pub out: Slots,
}

impl Lists {
    /// Empty lists, which take their memory from this allocator when they grow. They take none yet, so this is not refused. Where a list is
    /// refused more memory later, what it holds then means nothing.
    pub fn new(alloc: Global) -> Lists {
        Lists {
            room: Room::new(alloc),
            out: Slots::new(alloc),
        }
    }
}
