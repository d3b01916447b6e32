// The floor of a load, by look-ups.
ghost use Rattle.std.specs.Prelude.{◌≡◌, ℕ, ◌+◌, ◌*◌, ◌^◌, ◌<◌, ◌≤◌, ◌==◌, if◌then◌else◌, All, length, slice_index};
ghost use Rattle.mem_axioms.specs.Events.{is_seq_cst};
ghost use Rattle.clocks.specs.Tables.{table_at};
ghost use Rattle.view_parts.specs.Looks.{IsMade, IsFew, AllMade, AllFew};
ghost use Rattle.view_parts.specs.declared.families.Family.TheVariants.{Any};
ghost use Rattle.view_parts.specs.Indexed.{accesses_at};
ghost use Rattle.view_parts.specs.Touched.{entries_at};
ghost use Rattle.view_parts.specs.FloorLooks.{IsFound, FoundFloor};

use crate::cell::CellViews;
use crate::families::Family;
use crate::look_ups::{ByThread, floor_over, greater};
use crate::rows::Rows;
use clocks::Clock;
use mem_axioms::event_facts::seq_cst;
use mu_base::{Order, Steps};
use std::sync::ledger::Ledger;

/// The greatest position that a clock knows, or 0.
fn greatest_known<E: ByThread, L: Ledger>(
    indexes: &E,
    threads: &[u32],
    clock: &Clock,
    steps: &mut Steps<L>,
) -> u32
    requires few { All (λ t. t < 64) threads.now }
    requires made { IsMade threads.now (E.entries indexes.now) }
    ensures found { IsFound (E.entries indexes.now) clock.now result }
    ensures cost { (d : ℕ) → IsFew d (E.entries indexes.now) → steps.new ≤ steps.old + length threads.now * (d + 1) }
{
    floor_over(indexes, threads, clock, steps)
}

/// The greatest position of the accesses of a cell that a clock knows, or 0.
pub fn found_floor<L: Ledger>(
    kept: &CellViews,
    threads: &[u32],
    clock: &Clock,
    steps: &mut Steps<L>,
) -> u32
    requires few { All (λ t. t < 64) threads.now }
    requires made { AllMade threads.now kept.now }
    ensures found { IsFound (entries_at kept.now.accesses Any) clock.now result }
    ensures cost { (d : ℕ) → AllFew d kept.now → steps.new ≤ steps.old + length threads.now * (d + 1) }
{
    greatest_known(&kept.accesses.of(Family::Any), threads, clock, steps)
}

/// The number of the last SEQ_CST fence that a clock knows, or 0.
pub fn last_fence<L: Ledger>(
    rows: &Rows,
    threads: &[u32],
    clock: &Clock,
    steps: &mut Steps<L>,
) -> u32
    requires few { All (λ t. t < 64) threads.now }
    requires made { IsMade threads.now (accesses_at rows.now.fences.items) }
    ensures found { IsFound (accesses_at rows.now.fences.items) clock.now result }
    ensures cost { (d : ℕ) → IsFew d (accesses_at rows.now.fences.items) → steps.new ≤ steps.old + length threads.now * (d + 1) }
{
    greatest_known(&rows.fences, threads, clock, steps)
}

/// What the SEQ_CST fences before a number knew: all of them at a SEQ_CST load, else those before the fence of that number.
pub fn fences_before(rows: &Rows, order: Order, limit: u32) -> Clock
    ensures { (u : ℕ) → slice_index result u ≡ (if is_seq_cst order then slice_index rows.now.joined u else if limit == 0 then 0 else table_at rows.now.before limit u) }
{
    if seq_cst(order) {
        return rows.joined;
    }
    if limit == 0 {
        return Clock::new();
    }
    rows.before.of(limit).unwrap_or(Clock::new())
}

/// The greatest of the positions of three kinds, or 0.
pub fn greatest_of_kinds<L: Ledger>(
    kept: &CellViews,
    threads: &[u32],
    known: &Clock,
    below: &Clock,
    before: &Clock,
    steps: &mut Steps<L>,
) -> u32
    requires few { All (λ t. t < 64) threads.now }
    requires made { AllMade threads.now kept.now }
    ensures found { FoundFloor kept.now known.now below.now before.now result }
    ensures cost { (d : ℕ) → AllFew d kept.now → steps.new ≤ steps.old + 3 * (length threads.now * (d + 1)) }
{
    let first = found_floor(kept, threads, known, steps);
    let second = greatest_known(&kept.accesses.of(Family::SeqCst), threads, below, steps);
    let third = found_floor(kept, threads, before, steps);
    greater(first, greater(second, third))
}
