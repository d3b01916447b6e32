// What an event takes, gains and gives.
ghost use Rattle.std.specs.Prelude.{◌≡◌, ℕ, if◌then◌else◌, max, slice_index};
ghost use Rattle.mem_axioms.specs.Events.{position_taken, order_of};
ghost use Rattle.mem_axioms.specs.Synchronizes.{acquires};
ghost use Rattle.clocks.specs.Knowing.{known_by};
ghost use Rattle.clocks.specs.Tables.{row_at};
ghost use Rattle.view_parts.specs.CellClocks.{released_at};
ghost use Rattle.view_parts.specs.RowsAdded.{row_gains};
ghost use Rattle.view_parts.specs.Gaining.{takes_atomic, given_of};

use crate::cell::{CellViews, number_at};
use crate::rows::Rows;
use clocks::{Clock, ClockList, ThreadClocks, clock_under};
use mem_axioms::event_facts::{acquire, atomic, order_in, release, taken_by};
use mem_axioms::{Event, Kind, Mode};
use mu_base::Order;

/// Whether the event is an atomic read or update.
fn loads_atomically(event: &Event) -> bool
    ensures { result ≡ takes_atomic event.now }
{
    match event.kind {
        Kind::Access { mode, order, .. } => !matches!(mode, Mode::Write) && atomic(order),
        _ => false,
    }
}

/// What an access of the cell leaves for a later acquire fence of its thread: an atomic read or update leaves what the
/// position that it takes releases.
pub fn taken_from(clocks: &ClockList, kept: &CellViews, event: &Event) -> Option<Clock>
    ensures { (u : ℕ) → known_by result u ≡ (if takes_atomic event.now then released_at clocks.now kept.now (position_taken event.now) u else 0) }
{
    if loads_atomically(event) {
        clock_under(clocks, number_at(&kept.released, taken_by(event)))
    } else {
        None
    }
}

/// What is kept is gained, where anything is.
fn gain_kept(clock: &mut Clock, kept: &Option<Clock>)
    ensures { (u : ℕ) → slice_index clock.new u ≡ max (slice_index clock.old u) (known_by kept.now u) }
{
    if let Some(kept) = kept {
        clock.join(kept);
    }
}

/// An acquire gains what it took.
fn gain_taken(clock: &mut Clock, order: Order, taken: &Option<Clock>)
    ensures { (u : ℕ) → slice_index clock.new u ≡ max (slice_index clock.old u) (if acquires order then known_by taken.now u else 0) }
{
    if acquire(order) {
        gain_kept(clock, taken);
    }
}

/// An acquire fence gains what its thread's earlier reads took.
fn gain_pending(clock: &mut Clock, order: Order, pending: &ThreadClocks, thread: u32)
    ensures { (u : ℕ) → slice_index clock.new u ≡ max (slice_index clock.old u) (if acquires order then row_at pending.now thread u else 0) }
{
    if acquire(order) {
        clock.join(pending.of(thread));
    }
}

/// Joins to a clock what an event gains: an acquire what it took, or its thread's earlier reads took, an Enter what the stack
/// carries, and a Woken what the wake knew.
pub fn gain(clock: &mut Clock, rows: &Rows, event: &Event, taken: &Option<Clock>)
    ensures { (u : ℕ) → slice_index clock.new u ≡ max (slice_index clock.old u) (row_gains rows.now taken.now event.now u) }
{
    match event.kind {
        Kind::Access { order, .. } => gain_taken(clock, order, taken),
        Kind::Fence { order } => gain_pending(clock, order, &rows.pending, event.thread),
        Kind::Enter { stack } => gain_kept(clock, &rows.left.of(stack)),
        Kind::Woken { wake } => gain_kept(clock, &rows.wakes.of(wake)),
        _ => {}
    }
}

/// The clock, if it knows anything.
fn if_something(clock: &Clock) -> Option<Clock>
    ensures { (u : ℕ) → known_by result u ≡ slice_index clock.now u }
{
    if clock.is_nothing() {
        None
    } else {
        Some(*clock)
    }
}

/// What an event gives to the release sequences that it heads, where it knows a clock and its thread knew another at its
/// last release fence.
pub fn given_by(event: &Event, clock: &Clock, fenced: &Clock) -> Option<Clock>
    ensures { (u : ℕ) → known_by result u ≡ given_of event.now clock.now fenced.now u }
{
    let order = order_in(event);
    if !atomic(order) {
        return None;
    }
    if release(order) {
        Some(*clock)
    } else {
        if_something(fenced)
    }
}
