// The last position of a value, among positions that stand in runs, each in the order of values.
ghost use Rattle.std.specs.Prelude.{◌≡◌, ℕ, ◌+◌, ◌-◌, ◌^◌, ◌<◌, ◌≤◌, ◌*◌, true, length, take, slice_index, slice_index_or, if◌then◌else◌, Option, None, Some};
ghost use Rattle.mu_values.specs.SameScalar.{same_scalar};
ghost use Rattle.write_history.specs.ByValue.{value_in, IsRun, AreRuns};
ghost use Rattle.write_history.specs.Searching.{AreRanks, IsCut, LastIn, measure, passes};

use crate::runs::Starts;
use crate::scalar_order::is_lower;
use mem_axioms::event_facts::is_same_scalar;
use mu_base::Steps;
use mu_values::Scalar;
use std::sync::ledger::Ledger;

/// The last position of a value is sought, of those whose measure is below a limit. The measure is the position, or how many
/// positions below it have another value: both rise from one position of the value to the next.
#[derive(Clone, Copy)]
pub(crate) struct Sought {
    pub(crate) value: Scalar,
    pub(crate) limit: u32,
    pub(crate) others: bool,
}

/// Positions with their values: by position the value, and how many earlier positions have it; and the order by values.
#[derive(Clone, Copy)]
pub(crate) struct Positions<'a> {
    pub(crate) values: &'a [Scalar],
    pub(crate) ranks: &'a [u32],
    pub(crate) order: &'a [u32],
}

/// The measure of a position.
fn measure(positions: Positions, others: bool, position: u32) -> u32
    requires ranks { AreRanks positions.values.now positions.ranks.now }
    requires there { position < length positions.values.now }
    ensures { result ≡ measure others positions.entry.values.now position }
{
    if others {
        position - positions.ranks[position as usize]
    } else {
        position
    }
}

/// Looks at one place of the order: whether its position is passed. Nothing else reads the order and the values there.
fn passes<L: Ledger>(
    positions: Positions,
    sought: Sought,
    place: usize,
    steps: &mut Steps<L>,
) -> bool
    requires ranks { AreRanks positions.values.now positions.ranks.now }
    requires place { place < length positions.order.now }
    requires there { slice_index positions.order.now place < length positions.values.now }
    ensures passes { result ≡ passes positions.entry.values.now sought (slice_index positions.entry.order.now place) }
    ensures cost { steps.new ≡ steps.old + 1 }
{
    steps.tick();
    let position = positions.order[place];
    let value = positions.values[position as usize];
    if is_same_scalar(value, sought.value) {
        return measure(positions, sought.others, position) < sought.limit;
    }
    is_lower(value, sought.value)
}

/// Looks at one place of the order: its position, if it has the value.
fn of_value<L: Ledger>(
    positions: Positions,
    value: Scalar,
    place: usize,
    steps: &mut Steps<L>,
) -> Option<u32>
    requires place { place < length positions.order.now }
    requires there { slice_index positions.order.now place < length positions.values.now }
    ensures found { result ≡ (if same_scalar (value_in positions.entry.values.now (slice_index positions.entry.order.now place)) value then Some (slice_index positions.entry.order.now place) else None) }
    ensures cost { steps.new ≡ steps.old + 1 }
{
    steps.tick();
    let position = positions.order[place];
    if is_same_scalar(positions.values[position as usize], value) {
        Some(position)
    } else {
        None
    }
}

/// Up to which place of a run the positions are passed, by halves.
fn cut<L: Ledger>(
    positions: Positions,
    sought: Sought,
    start: usize,
    end: usize,
    steps: &mut Steps<L>,
) -> usize
    requires ranks { AreRanks positions.values.now positions.ranks.now }
    requires start { start ≤ end }
    requires end { end ≤ length positions.order.now }
    requires few { length positions.order.now ≤ length positions.values.now }
    requires run { IsRun positions.values.now positions.order.now start end }
    ensures cut { IsCut positions.entry.values.now positions.entry.order.now sought start end result }
    ensures cost { (d : ℕ) → end - start < 2 ^ d → steps.new ≤ steps.old + d }
{
    let mut low = start;
    let mut high = end;
    while low < high {
        let middle = low + (high - low) / 2;
        if passes(positions, sought, middle, steps) {
            low = middle + 1;
        } else {
            high = middle;
        }
    }
    low
}

/// The last position that is sought, of one run. The last place of the run is looked at first.
fn last_in_run<L: Ledger>(
    positions: Positions,
    sought: Sought,
    start: usize,
    end: usize,
    steps: &mut Steps<L>,
) -> Option<u32>
    requires ranks { AreRanks positions.values.now positions.ranks.now }
    requires start { start ≤ end }
    requires end { end ≤ length positions.order.now }
    requires few { length positions.order.now ≤ length positions.values.now }
    requires run { IsRun positions.values.now positions.order.now start end }
    ensures found { LastIn positions.entry.values.now sought start end result }
    ensures cost { (d : ℕ) → end - start < 2 ^ d → steps.new ≤ steps.old + (d + 2) }
{
    if start == end {
        return None;
    }
    if passes(positions, sought, end - 1, steps) {
        return of_value(positions, sought.value, end - 1, steps);
    }
    let cut = cut(positions, sought, start, end, steps);
    if cut == start {
        return None;
    }
    of_value(positions, sought.value, cut - 1, steps)
}

/// What was found in newer runs, or else what is found in this one.
fn or_in_run<L: Ledger>(
    newer: Option<u32>,
    positions: Positions,
    sought: Sought,
    start: usize,
    end: usize,
    steps: &mut Steps<L>,
) -> Option<u32>
    requires ranks { AreRanks positions.values.now positions.ranks.now }
    requires start { start ≤ end }
    requires end { end ≤ length positions.order.now }
    requires few { length positions.order.now ≤ length positions.values.now }
    requires run { IsRun positions.values.now positions.order.now start end }
    requires newer { LastIn positions.values.now sought end (length positions.order.now) newer }
    ensures found { LastIn positions.entry.values.now sought start (length positions.entry.order.now) result }
    ensures cost { (d : ℕ) → end - start < 2 ^ d → steps.new ≤ steps.old + (d + 2) }
{
    match newer {
        Some(position) => Some(position),
        None => last_in_run(positions, sought, start, end, steps),
    }
}

/// The last position that is sought. The newest positions are looked at first.
pub(crate) fn last<L: Ledger>(
    positions: Positions,
    sought: Sought,
    starts: Starts,
    steps: &mut Steps<L>,
) -> Option<u32>
    requires ranks { AreRanks positions.values.now positions.ranks.now }
    requires runs { AreRuns positions.values.now positions.order.now starts }
    requires few { length positions.order.now ≡ length positions.values.now }
    ensures found { LastIn positions.entry.values.now sought 0 (length positions.entry.values.now) result }
    ensures cost { (d : ℕ) → length positions.entry.values.now < 2 ^ d → steps.new ≤ steps.old + (d + 41) }
{
    let end = positions.order.len();
    let found = last_in_run(positions, sought, starts.fourth, end, steps);
    let found = or_in_run(found, positions, sought, starts.third, starts.fourth, steps);
    let found = or_in_run(found, positions, sought, starts.second, starts.third, steps);
    or_in_run(found, positions, sought, 0, starts.second, steps)
}
