// Positions in the order of their values. They stand in four runs, each in order, and a new position starts a fifth, which is
// merged into the fourth at once. A run that becomes too long is merged into the one before it.
ghost use Rattle.std.specs.Prelude.{◌≡◌, ◌⊎◌, ℕ, suc, ◌+◌, ◌-◌, ◌<◌, ◌≤◌, [], ◌++◌, not, length, take, slice_index, slice_index_or, vec_len, vec_capacity};
ghost use Rattle.write_history.specs.ScalarOrder.{is_lower};
ghost use Rattle.write_history.specs.ByValue.{value_in, IsRun, AreRuns, BeforeSettling, next_is_older};
ghost use Rattle.write_history.specs.Merging.{Interleaves};

use crate::scalar_order::is_lower;
use mu_values::Scalar;

/// Where the second, third and fourth run start, as numbers of positions before them.
#[derive(Clone, Copy)]
pub(crate) struct Starts {
    pub(crate) second: usize,
    pub(crate) third: usize,
    pub(crate) fourth: usize,
}

// So many positions may be in the second, third and fourth run.
const SECOND: usize = 32768;

const THIRD: usize = 1024;

const FOURTH: usize = 32;

/// Whether the position at a place may stand before that at a later place.
fn in_order(values: &[Scalar], order: &[u32], left: usize, right: usize) -> bool
    requires left { slice_index order.now left < length values.now }
    requires right { slice_index order.now right < length values.now }
    requires within { left < length order.now }
    requires right_within { right < length order.now }
    ensures { result ≡ not (is_lower (value_in values.now (slice_index order.now right)) (value_in values.now (slice_index order.now left))) }
{
    let lower = is_lower(values[order[right] as usize], values[order[left] as usize]);
    !lower
}

/// Whether the next of two runs is of the older one.
fn is_older_next(values: &[Scalar], order: &[u32], left: usize, middle: usize, right: usize) -> bool
    requires left { left ≤ middle }
    requires right { right ≤ length order.now }
    requires older { left < middle → slice_index order.now left < length values.now }
    requires newer { right < length order.now → slice_index order.now right < length values.now }
    requires middle { middle ≤ length order.now }
    ensures { result ≡ next_is_older values.now order.now left middle right }
{
    if left == middle {
        return false;
    }
    if right == order.len() {
        return true;
    }
    in_order(values, order, left, right)
}

/// Writes the positions from a place on, which stand in two runs, in one order.
fn interleave(values: &[Scalar], order: &[u32], start: usize, middle: usize, merged: &mut Vec<u32>)
    requires start { start ≤ middle }
    requires middle { middle ≤ length order.now }
    requires older { IsRun values.now order.now start middle }
    requires newer { IsRun values.now order.now middle (length order.now) }
    requires few { length order.now ≤ length values.now }
    requires empty { merged.old.items ≡ [] }
    requires room { length order.now ≤ vec_capacity merged.old }
    ensures merged { Interleaves values.now order.now start middle middle (length order.now) merged.new.items }
    ensures capacity { vec_capacity merged.new ≡ vec_capacity merged.old }
{
    let mut left = start;
    let mut right = middle;
    for index in start..order.len() {
        if is_older_next(values, order, left, middle, right) {
            merged.push_reserved(order[left]);
            left += 1;
        } else {
            merged.push_reserved(order[right]);
            right += 1;
        }
    }
}

/// Puts positions into the order from a place on.
fn put_back(order: &mut Vec<u32>, merged: &[u32], start: usize)
    requires start { start ≤ length order.old.items }
    requires all { start + length merged.now ≡ length order.old.items }
    ensures items { order.new.items ≡ take start order.old.items ++ merged.now }
    ensures len { vec_len order.new ≡ vec_len order.old }
    ensures capacity { vec_capacity order.new ≡ vec_capacity order.old }
{
    order.truncate(start);
    for position in merged {
        order.push_reserved(*position);
    }
}

/// Merges the positions from a place on, which stand in two runs, into one. Where they are in order it moves none.
fn merge(
    values: &[Scalar],
    order: &mut Vec<u32>,
    merged: &mut Vec<u32>,
    start: usize,
    middle: usize,
)
    requires start { start ≤ middle }
    requires middle { middle ≤ length order.old.items }
    requires older { IsRun values.now order.old.items start middle }
    requires newer { IsRun values.now order.old.items middle (length order.old.items) }
    requires few { length order.old.items ≤ length values.now }
    requires room { length order.old.items ≤ vec_capacity merged.old }
    ensures run { IsRun values.now order.new.items start (length order.new.items) }
    ensures kept { take start order.new.items ≡ take start order.old.items }
    ensures size { length order.new.items ≡ length order.old.items }
    ensures len { vec_len order.new ≡ vec_len order.old }
    ensures capacity { vec_capacity order.new ≡ vec_capacity order.old }
    ensures room { vec_capacity merged.new ≡ vec_capacity merged.old }
{
    if start == middle || middle == order.len() || in_order(values, order, middle - 1, middle) {
        return;
    }
    merged.clear();
    interleave(values, order, start, middle, merged);
    put_back(order, merged, start);
}

/// Merges the newest position into the fourth run, and each run that is too long into the one before it.
pub(crate) fn settle(
    values: &[Scalar],
    order: &mut Vec<u32>,
    merged: &mut Vec<u32>,
    starts: Starts,
) -> Starts
    requires runs { BeforeSettling values.now order.old.items starts }
    requires few { length order.old.items ≤ length values.now }
    requires room { length order.old.items ≤ vec_capacity merged.old }
    ensures runs { AreRuns values.now order.new.items result }
    ensures size { length order.new.items ≡ length order.old.items }
    ensures len { vec_len order.new ≡ vec_len order.old }
    ensures capacity { vec_capacity order.new ≡ vec_capacity order.old }
    ensures room { vec_capacity merged.new ≡ vec_capacity merged.old }
{
    let count = order.len();
    merge(values, order, merged, starts.fourth, count - 1);
    if count - starts.fourth <= FOURTH {
        return starts;
    }
    merge(values, order, merged, starts.third, starts.fourth);
    if count - starts.third <= THIRD {
        return Starts {
            fourth: count,
            ..starts
        };
    }
    merge(values, order, merged, starts.second, starts.third);
    if count - starts.second <= SECOND {
        return Starts {
            third: count,
            fourth: count,
            ..starts
        };
    }
    merge(values, order, merged, 0, starts.second);
    Starts {
        second: count,
        third: count,
        fourth: count,
    }
}
