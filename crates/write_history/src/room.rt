// Room in lists.
ghost use Rattle.std.specs.Prelude.{◌≡◌, ◌+◌, ◌≤◌, vec_len, vec_capacity, OnOk};

use std::alloc::AllocError;

/// Makes room for that many more items. The first room is exactly what is asked, since most lists stay as short as that;
/// a list that has items grows by more, so that it seldom moves.
pub fn make_room<T>(items: &mut Vec<T>, count: usize) -> Result<(), AllocError>
    ensures items { items.new.items ≡ items.old.items }
    ensures len { vec_len items.new ≡ vec_len items.old }
    ensures ok { OnOk result (vec_len items.new + count ≤ vec_capacity items.new) }
    ensures capacity { vec_capacity items.old ≤ vec_capacity items.new }
{
    if items.is_empty() {
        items.reserve_exact(count)
    } else {
        items.reserve(count)
    }
}
