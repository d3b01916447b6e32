//! Copies of values.
ghost use Rattle.std.specs.Prelude.{◌≡◌, IfOk};

use mu_base::Types;
use mu_values::{Passed, Slots};
use std::alloc::{AllocError, Global};

/// A copy of some values.
fn copy_slots(alloc: Global, values: &Slots) -> Result<Slots, AllocError>
    ensures { IfOk result (λ copy. copy.values ≡ values.now.values) }
{
    let mut copy = Slots::new(alloc);
    for n in 0..values.len() {
        copy.push_slice(values.at(n))?;
    }
    Ok(copy)
}

/// A copy of values with their types.
pub fn copy_values(alloc: Global, values: &Passed) -> Result<Passed, AllocError>
    ensures { IfOk result (λ copy. copy ≡ values.now) }
{
    let types = Vec::from_slice(alloc, values.types().as_slice())?;
    let slots = copy_slots(alloc, values.values())?;
    Ok(Passed::new(Types::from_vec(types), slots))
}
