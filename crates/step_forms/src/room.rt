// Room for lists that one step hands on.
ghost use Rattle.std.specs.Prelude.{◌≡◌, []};

use mu_base::Types;
use mu_values::{Scalar, Slots};
use std::alloc::Global;

/// Lists into which operands are read. A machine keeps one and lends it to each step, so that a step takes no memory once its lists
/// are long enough. What they hold between steps means nothing.
#[derive(Drop)]
pub struct Room {
    /// Values of operands.
    pub values: Slots,
    /// The classes of such values.
    pub types: Types,
    /// Values of operands of a second destination. Between steps it keeps the room of a frame that has ended for the next one.
    pub others: Slots,
    /// The classes of values that a stack is left for, that a client is asked for, or that a frame waits for which calls a function.
    /// Between steps it keeps the room of such a list.
    pub waits: Types,
    /// The scalars of a value that is put together.
    pub scalars: Vec<Scalar>,
}

impl Room {
    /// Empty lists. They take no memory yet.
    pub fn new(alloc: Global) -> Room
        ensures values { result.values.values ≡ [] }
        ensures types { result.types.members ≡ [] }
        ensures others { result.others.values ≡ [] }
        ensures waits { result.waits.members ≡ [] }
    {
        Room {
            values: Slots::new(alloc),
            types: Types::new(alloc),
            others: Slots::new(alloc),
            waits: Types::new(alloc),
            scalars: Vec::new(alloc),
        }
    }
}
