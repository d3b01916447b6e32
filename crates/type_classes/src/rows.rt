// Lists that are read and written without bounds.

ghost use Rattle.std.specs.Prelude.{◌≡◌, ℕ, ◌<◌, length, slice_index, slice_set, slice_index_or, [], OnOk};
ghost use Rattle.mu_types.specs.Rows.{lists, added};

use std::alloc::AllocError;

/// The number at a place, 0 past the end.
pub fn at(list: &[usize], i: usize) -> usize
    ensures { result ≡ slice_index list.now i }
{
    if i < list.len() { list[i] } else { 0 }
}

/// Writes at a place, nothing past the end.
pub fn put(list: &mut [usize], i: usize, value: usize)
    ensures { list.new ≡ slice_set list.old i value }
{
    if i < list.len() {
        list[i] = value;
    }
}

/// Adds to a row.
#[tactic(auto, using(crate::proofs::RowLemmas::lists_pushed))]
pub fn push_to<T: Copy>(rows: &mut [Vec<T>], i: usize, x: T) -> Result<(), AllocError>
    requires { i < length rows.old }
    ensures len { length rows.new ≡ length rows.old }
    ensures added { OnOk result (lists rows.new ≡ added (lists rows.old) i x) }
{
    rows[i].push(x)?;
    Ok(())
}

/// Empties a row, and keeps its room.
#[tactic(auto, using(crate::proofs::RowLemmas::lists_emptied))]
pub fn clear_row(rows: &mut [Vec<usize>], i: usize)
    requires { i < length rows.old }
    ensures len { length rows.new ≡ length rows.old }
    ensures rest { lists rows.new ≡ slice_set (lists rows.old) i [] }
{
    rows[i].clear();
}
