// Indexes by thread, made as they are needed.
ghost use Rattle.std.specs.Prelude.{◌≡◌, ℕ, ◌+◌, ◌<◌, ◌≤◌, ◌==◌, ◌∷◌, All, if◌then◌else◌, length, OnOk};
ghost use Rattle.view_parts.specs.Indexed.{index_at, accesses_at};

use crate::look_ups::ByThread;
use std::alloc::{AllocError, Global};
use write_history::AccessIndex;

impl ByThread for Vec<AccessIndex> {
    ghost entries = { λ indexes. accesses_at indexes.items };

    fn index(&self, thread: usize) -> Option<&AccessIndex> {
        if thread < self.len() {
            Some(&self[thread])
        } else {
            None
        }
    }
}

/// Makes the indexes up to that of a thread, and room for that many more entries in that of the thread.
pub fn reserve(
    indexes: &mut Vec<AccessIndex>,
    alloc: Global,
    thread: usize,
    count: usize,
) -> Result<(), AllocError>
    requires { thread < 64 }
    ensures same { (u : ℕ) → accesses_at indexes.new.items u ≡ accesses_at indexes.old.items u }
    ensures spare { (u : ℕ) → (index_at indexes.old.items u).spare ≤ (index_at indexes.new.items u).spare }
    ensures len { length indexes.old.items ≤ length indexes.new.items }
    ensures there { OnOk result (thread < length indexes.new.items) }
    ensures room { OnOk result (count ≤ (index_at indexes.new.items thread).spare) }
{
    make_indexes(indexes, alloc, thread)?;
    reserve_at(indexes, thread, count)
}

/// Makes the indexes up to that of a thread. Their list takes exactly what they need, since it grows at most once for each
/// of 64 threads; but the first time it has room for those of two, as few cells are left to one.
fn make_indexes(
    indexes: &mut Vec<AccessIndex>,
    alloc: Global,
    thread: usize,
) -> Result<(), AllocError>
    requires { thread < 64 }
    ensures same { (u : ℕ) → accesses_at indexes.new.items u ≡ accesses_at indexes.old.items u }
    ensures spare { (u : ℕ) → (index_at indexes.old.items u).spare ≤ (index_at indexes.new.items u).spare }
    ensures len { length indexes.old.items ≤ length indexes.new.items }
    ensures there { OnOk result (thread < length indexes.new.items) }
{
    indexes.reserve_exact((thread + 1).max(2).saturating_sub(indexes.len()))?;
    while indexes.len() <= thread {
        indexes.push_reserved(AccessIndex::new(alloc));
    }
    Ok(())
}

fn reserve_at(indexes: &mut Vec<AccessIndex>, thread: usize, count: usize) -> Result<(), AllocError>
    requires { thread < length indexes.old.items }
    ensures same { (u : ℕ) → accesses_at indexes.new.items u ≡ accesses_at indexes.old.items u }
    ensures spare { (u : ℕ) → (index_at indexes.old.items u).spare ≤ (index_at indexes.new.items u).spare }
    ensures len { length indexes.new.items ≡ length indexes.old.items }
    ensures room { OnOk result (count ≤ (index_at indexes.new.items thread).spare) }
{
    indexes[thread].reserve_many(count)
}

/// Adds an entry for a thread.
pub fn push(indexes: &mut Vec<AccessIndex>, thread: usize, event: u32, position: u32)
    requires there { thread < length indexes.old.items }
    requires room { 0 < (index_at indexes.old.items thread).spare }
    requires above { All (λ entry. entry.event < event) (accesses_at indexes.old.items thread) }
    ensures entries { (u : ℕ) → accesses_at indexes.new.items u ≡ (if u == thread then record { event = event; position = position } ∷ accesses_at indexes.old.items u else accesses_at indexes.old.items u) }
    ensures spare { (u : ℕ) → (index_at indexes.old.items u).spare ≤ (index_at indexes.new.items u).spare + 1 }
    ensures len { length indexes.new.items ≡ length indexes.old.items }
{
    indexes[thread].push(event, position);
}
