// How far places move.
ghost use Rattle.std.specs.Prelude.{◌≡◌, ◌-◌, ◌^◌, ◌<◌, min, length, ℤ, pos, ◌+ℤ◌, ◌*ℤ◌};
ghost use Rattle.std.specs.List.{All};
ghost use Rattle.typed_heap.specs.Places.{leaves_together};
ghost use Rattle.typed_heap.specs.Offsets.{offset_of};

use mu_types::Classes;

/// The offset that is so many times so many leaves behind another; None where it is negative or 2^32 or more.
pub(crate) fn moved(at: u32, by: i128, leaves: usize) -> Option<u32>
    ensures { result ≡ offset_of (pos at +ℤ (by *ℤ pos leaves)) }
{
    let far = by.checked_mul(leaves as i128)?;
    let offset = i128::from(at).checked_add(far)?;
    u32::try_from(offset).ok()
}

/// How many leaves some types have together, 2^64 - 1 standing for every greater number.
pub(crate) fn leaves_before(classes: &Classes, types: &[u32]) -> usize
    requires { All (λ t. t < length classes.now.definitions) types.now }
    ensures { result ≡ min (leaves_together classes.now.definitions types.now) (2 ^ 64 - 1) }
{
    let mut sum: usize = 0;
    for t in types {
        sum = sum.saturating_add(classes.leaves(*t).len());
    }
    sum
}
