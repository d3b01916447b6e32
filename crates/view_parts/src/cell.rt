// What is kept of one cell.
ghost use Rattle.std.specs.Prelude.{◌≡◌, true, ℕ, suc, ◌+◌, ◌-◌, ◌<◌, ◌≤◌, ◌==◌, ◌&&◌, ◌∷◌, [], ◌++◌, All, if◌then◌else◌, max, length, slice_index, vec_len, vec_capacity, OnOk, IfOk};
ghost use Rattle.mem_axioms.specs.Events.{is_modification, is_update, position_of, value_of};
ghost use Rattle.mem_axioms.specs.Synchronizes.{continues};
ghost use Rattle.clocks.specs.Knowing.{known_by};
ghost use Rattle.clocks.specs.KeptClocks.{kept_at, Grown};

use crate::families::NextEvent;
use crate::touched::CellAccesses;
use clocks::{Clock, ClockList, keep_with};
use mem_axioms::event_facts::{atomic, modification, order_in, position_in, update};
use mem_axioms::{Event, Kind, Rule};
use mu_values::Scalar;
use std::alloc::{AllocError, Global};
use write_history::History;

/// What is kept of a cell that was touched: its values, what its positions release, and its accesses by thread.
#[derive(Drop)]
pub struct CellViews {
    pub history: History,
    /// What an acquire of each position takes, by the number under which that clock is kept.
    pub released: Vec<u32>,
    /// The same of the newest position, of the heads by each thread alone.
    pub sequence: Vec<u32>,
    /// Its accesses by thread.
    pub accesses: CellAccesses,
}

/// The value of an access, or NULL.
fn value_in(event: &Event) -> Scalar
    ensures { result ≡ value_of event.now }
{
    match event.kind {
        Kind::Access { value, .. } => value,
        _ => Scalar::Null,
    }
}

/// Whether a write or update goes on the sequences of its own thread.
fn continues_own(rule: Rule, event: &Event) -> bool
    ensures { result ≡ continues rule event.now event.now.thread }
{
    update(event) || (matches!(rule, Rule::C11) && atomic(order_in(event)))
}

/// The number at a place of a list, or 0.
pub fn number_at(numbers: &[u32], place: u32) -> u32
    ensures { result ≡ slice_index numbers.now place }
{
    let place = place as usize;
    if place < numbers.len() {
        numbers[place]
    } else {
        0
    }
}

/// What the sequences by the event's own thread release from then on: what their new head gives, and what they released
/// where they go on.
fn own_sequence(
    rule: Rule,
    clocks: &mut ClockList,
    sequence: &[u32],
    event: &Event,
    given: &Option<Clock>,
) -> u32
    requires room { 0 < clocks.old.spare }
    requires named { (t : ℕ) → slice_index sequence.now t ≤ length clocks.old.ends }
    ensures kept { (u : ℕ) → kept_at clocks.new result u ≡ max (known_by given.now u) (if continues rule event.now event.now.thread then kept_at clocks.old (slice_index sequence.now event.now.thread) u else 0) }
    ensures there { result ≤ length clocks.new.ends }
    ensures grown { Grown clocks.old clocks.new }
    ensures spare { clocks.old.spare ≤ clocks.new.spare + 1 }
{
    if continues_own(rule, event) {
        keep_with(clocks, given, number_at(sequence, event.thread))
    } else {
        keep_with(clocks, given, 0)
    }
}

/// What the new position releases: what its own head gives, and what the sequences that go on released. These are all of the
/// position before at an update, else those of the event's own thread.
fn released_by(
    clocks: &mut ClockList,
    released: &[u32],
    event: &Event,
    given: &Option<Clock>,
    own: u32,
) -> u32
    requires room { 0 < clocks.old.spare }
    requires named { (p : ℕ) → slice_index released.now p ≤ length clocks.old.ends }
    requires own { own ≤ length clocks.old.ends }
    ensures kept { (u : ℕ) → kept_at clocks.new result u ≡ (if is_update event.now then max (known_by given.now u) (kept_at clocks.old (slice_index released.now (position_of event.now - 1)) u) else kept_at clocks.old own u) }
    ensures there { result ≤ length clocks.new.ends }
    ensures grown { Grown clocks.old clocks.new }
    ensures spare { clocks.old.spare ≤ clocks.new.spare + 1 }
{
    if update(event) {
        keep_with(
            clocks,
            given,
            number_at(released, position_in(event).saturating_sub(1)),
        )
    } else {
        own
    }
}

/// The sequences by other threads end, save at an update.
fn end_others(sequence: &mut Vec<u32>, event: &Event)
    ensures ended { (t : ℕ) → slice_index sequence.new.items t ≡ (if is_update event.now then slice_index sequence.old.items t else 0) }
    ensures len { length sequence.new.items ≡ length sequence.old.items }
{
    if !update(event) {
        sequence.fill(0);
    }
}

/// The sequences of the heads of each thread go on or end.
fn go_on(sequence: &mut Vec<u32>, event: &Event, own: u32)
    requires there { event.now.thread < length sequence.old.items }
    ensures numbers { (t : ℕ) → slice_index sequence.new.items t ≡ (if t == event.now.thread then own else if is_update event.now then slice_index sequence.old.items t else 0) }
    ensures len { length sequence.new.items ≡ length sequence.old.items }
{
    end_others(sequence, event);
    sequence[event.thread as usize] = own;
}

/// A write or update makes the next position.
fn make_position(history: &mut History, event: &Event)
    requires room { 0 < history.old.spare }
    requires few { length history.old.values < 4294967295 }
    ensures values { history.new.values ≡ (if is_modification event.now then history.old.values ++ value_of event.now ∷ [] else history.old.values) }
    ensures spare { history.old.spare ≤ history.new.spare + 1 }
{
    if modification(event) {
        history.push(value_in(event));
    }
}

/// A write or update releases its position, and its sequences go on.
fn release_position(
    rule: Rule,
    clocks: &mut ClockList,
    released: &mut Vec<u32>,
    sequence: &mut Vec<u32>,
    next: NextEvent,
)
    requires position { is_modification next.event.now ≡ true → position_of next.event.now ≡ length released.old.items }
    requires clocks { 2 ≤ clocks.old.spare }
    requires room { vec_len released.old < vec_capacity released.old }
    requires there { next.event.now.thread < length sequence.old.items }
    requires released { (p : ℕ) → slice_index released.old.items p ≤ length clocks.old.ends }
    requires sequence { (t : ℕ) → slice_index sequence.old.items t ≤ length clocks.old.ends }
    ensures released { (p u : ℕ) → kept_at clocks.new (slice_index released.new.items p) u ≡ (if is_modification next.entry.event.now && (position_of next.entry.event.now == p) then max (known_by next.entry.given.now u) (if is_update next.entry.event.now then kept_at clocks.old (slice_index released.old.items (p - 1)) u else if continues rule next.entry.event.now next.entry.event.now.thread then kept_at clocks.old (slice_index sequence.old.items next.entry.event.now.thread) u else 0) else kept_at clocks.old (slice_index released.old.items p) u) }
    ensures sequence { (t u : ℕ) → kept_at clocks.new (slice_index sequence.new.items t) u ≡ (if is_modification next.entry.event.now then max (if t == next.entry.event.now.thread then known_by next.entry.given.now u else 0) (if continues rule next.entry.event.now t then kept_at clocks.old (slice_index sequence.old.items t) u else 0) else kept_at clocks.old (slice_index sequence.old.items t) u) }
    ensures positions { length released.new.items ≡ (if is_modification next.entry.event.now then length released.old.items + 1 else length released.old.items) }
    ensures named { (p : ℕ) → slice_index released.new.items p ≤ length clocks.new.ends }
    ensures named_sequence { (t : ℕ) → slice_index sequence.new.items t ≤ length clocks.new.ends }
    ensures grown { Grown clocks.old clocks.new }
    ensures spare { clocks.old.spare ≤ clocks.new.spare + 2 }
    ensures len { length sequence.new.items ≡ length sequence.old.items }
    ensures room { vec_len released.new ≤ vec_len released.old + 1 }
    ensures capacity { vec_capacity released.old ≤ vec_capacity released.new }
{
    let event = next.event;
    if modification(event) {
        let own = own_sequence(rule, clocks, sequence, event, next.given);
        let number = released_by(clocks, released, event, next.given, own);
        released.push_reserved(number);
        go_on(sequence, event, own);
    }
}

/// Adds zeros up to a place.
fn grow_to(numbers: &mut Vec<u32>, place: usize) -> Result<(), AllocError>
    requires { place < 64 }
    ensures same { (t : ℕ) → slice_index numbers.new.items t ≡ slice_index numbers.old.items t }
    ensures there { OnOk result (place < length numbers.new.items) }
    ensures len { length numbers.old.items ≤ length numbers.new.items }
{
    while numbers.len() <= place {
        numbers.push(0)?;
    }
    Ok(())
}

impl CellViews {
    ghost use Rattle.view_parts.specs.CellClocks.{Named};
    ghost use Rattle.view_parts.specs.CellAdded.{CellAdded, CellRoom, CellBelow, SameCell, IsFresh};

    /// What is kept of a cell that nothing accessed yet. Position 0 has NULL in the place of the initial scalar, which the
    /// objects have, and releases nothing.
    pub fn new(alloc: Global) -> Result<CellViews, AllocError>
        ensures fresh { IfOk result IsFresh }
    {
        let mut history = History::new(alloc);
        // A cell is named for an access, which may make position 1. One more is asked for with each access.
        history.reserve_many(3)?;
        history.push(Scalar::Null);
        let mut released = Vec::new(alloc);
        released.push(0)?;
        Ok(CellViews {
            history,
            released,
            sequence: Vec::new(alloc),
            accesses: CellAccesses::new(alloc),
        })
    }

    /// Makes room for that many more accesses by a thread.
    pub fn reserve(&mut self, alloc: Global, thread: u32, count: u32) -> Result<(), AllocError>
        requires { thread < 64 }
        ensures same { SameCell self.old self.new }
        ensures room { OnOk result (CellRoom count thread self.new) }
    {
        let thread = thread as usize;
        let count = count as usize;
        self.history.reserve_many(count)?;
        self.released.reserve(count)?;
        grow_to(&mut self.sequence, thread)?;
        self.accesses.reserve(alloc, thread, count)
    }

    /// Adds an access of the cell.
    pub fn add(&mut self, rule: Rule, clocks: &mut ClockList, next: NextEvent)
        requires number { next.number < 4294967295 }
        requires room { CellRoom 1 next.event.now.thread self.old }
        requires below { CellBelow (suc next.number) next.event.now.thread self.old }
        requires position { is_modification next.event.now ≡ true → position_of next.event.now ≡ length self.old.released.items }
        requires clocks { 2 ≤ clocks.old.spare }
        requires named { Named clocks.old self.old }
        requires few { length self.old.history.values < 4294967295 }
        ensures added { CellAdded rule clocks.old clocks.new self.old self.new next.entry.number next.entry.event.now next.entry.given.now }
        ensures clocks { clocks.old.spare ≤ clocks.new.spare + 2 }
        ensures room { (count : ℕ) → CellRoom (count + 1) next.entry.event.now.thread self.old → CellRoom count next.entry.event.now.thread self.new }
    {
        let event = next.event;
        make_position(&mut self.history, event);
        release_position(rule, clocks, &mut self.released, &mut self.sequence, next);
        self.accesses.add(next);
    }
}
