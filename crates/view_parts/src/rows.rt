// What threads, stacks, wakes and fences know.
ghost use Rattle.std.specs.Prelude.{◌≡◌, ℕ, suc, ◌+◌, ◌<◌, ◌≤◌, ◌==◌, ◌&&◌, ◌∷◌, All, if◌then◌else◌, max, length, slice_index, OnOk, [], List, true};
ghost use Rattle.mem_axioms.specs.Events.{order_of, is_fence, is_seq_cst_fence, is_wake};
ghost use Rattle.mem_axioms.specs.Synchronizes.{releases, gives_up, makes_thread};
ghost use Rattle.mem_axioms.specs.declared.types.Rule.{Rule};
ghost use Rattle.mem_axioms.specs.declared.types.Event.{Event};
ghost use Rattle.clocks.specs.Knowing.{known_by};
ghost use Rattle.clocks.specs.Tables.{table_at, row_at};
ghost use Rattle.view_parts.specs.Indexed.{index_at, accesses_at};

use crate::indexes;
use clocks::{Clock, ClockTable, EventClocks, ThreadClocks};
use mem_axioms::event_facts::{fence, order_in, release, seq_cst_fence};
use mem_axioms::{Event, Kind};
use std::alloc::{AllocError, Global};
use write_history::AccessIndex;

/// Clocks of threads, stacks, wakes and fences.
#[derive(Drop)]
pub struct Rows {
    /// What each thread knows.
    pub threads: ThreadClocks,
    /// What a stack's last leaving or making knew.
    pub left: ClockTable,
    /// What each wake knew, by its number.
    pub wakes: EventClocks,
    /// What each thread knew at its last release fence.
    pub fenced: ThreadClocks,
    /// What an acquire fence of each thread takes.
    pub pending: ThreadClocks,
    /// What the SEQ_CST fences before each SEQ_CST fence knew, by its number.
    pub before: EventClocks,
    /// What all SEQ_CST fences knew.
    pub joined: Clock,
    /// The SEQ_CST fences of each thread.
    pub fences: Vec<AccessIndex>,
    // Each thread below 64 has room for that many fences, so that `reserve` seldom has to look at all of them.
    fence_room: usize,
    ghost fences_there: { 0 < fence_room → 64 ≤ length fences.items },
    ghost fences_fit: { (t : ℕ) → t < 64 → fence_room ≤ (index_at fences.items t).spare },
}

// How many fences more than were asked for room is made for.
const MORE_FENCES: usize = 64;

/// A thread that the event makes takes the clock of the event.
fn start(threads: &mut ThreadClocks, event: &Event, clock: &Clock)
    requires child { (t : ℕ) → makes_thread t event.now ≡ true → t < length threads.old }
    ensures joined { (t u : ℕ) → row_at threads.new t u ≡ (if makes_thread t event.now then max (row_at threads.old t u) (slice_index clock.now u) else row_at threads.old t u) }
    ensures len { length threads.new ≡ length threads.old }
{
    if let Kind::NewThread { child } = event.kind {
        threads.join(child, clock);
    }
}

/// A stack that the event makes or leaves takes its clock.
fn leave(left: &mut ClockTable, event: &Event, clock: &Clock)
    requires room { 0 < left.old.spare }
    ensures put { (s u : ℕ) → table_at left.new s u ≡ (if gives_up s event.now then slice_index clock.now u else table_at left.old s u) }
    ensures spare { left.old.spare ≤ left.new.spare + 1 }
{
    match event.kind {
        Kind::Leave { stack } => left.put(stack, clock),
        Kind::NewStack { stack } => left.put(stack, clock),
        _ => {}
    }
}

/// A wake keeps its clock.
fn wake(wakes: &mut EventClocks, event: &Event, number: u32, clock: &Clock)
    requires room { 0 < wakes.old.spare }
    ensures put { (i u : ℕ) → table_at wakes.new i u ≡ (if is_wake event.now && (i == number) then slice_index clock.now u else table_at wakes.old i u) }
    ensures spare { wakes.old.spare ≤ wakes.new.spare + 1 }
{
    if let Kind::Wake { .. } = event.kind {
        wakes.put(number, clock);
    }
}

/// A release fence keeps its clock for its thread.
fn fence_off(fenced: &mut ThreadClocks, event: &Event, clock: &Clock)
    requires there { event.now.thread < length fenced.old }
    ensures set { (t u : ℕ) → row_at fenced.new t u ≡ (if (t == event.now.thread) && (is_fence event.now && releases (order_of event.now)) then slice_index clock.now u else row_at fenced.old t u) }
    ensures len { length fenced.new ≡ length fenced.old }
{
    if fence(event) && release(order_in(event)) {
        fenced.set(event.thread, clock);
    }
}

/// What a thread took stays for its next acquire fence.
fn pend(pending: &mut ThreadClocks, thread: u32, taken: &Option<Clock>)
    requires there { thread < length pending.old }
    ensures joined { (t u : ℕ) → row_at pending.new t u ≡ (if t == thread then max (row_at pending.old t u) (known_by taken.now u) else row_at pending.old t u) }
    ensures len { length pending.new ≡ length pending.old }
{
    if let Some(taken) = taken {
        pending.join(thread, taken);
    }
}

/// A SEQ_CST fence keeps what those before it knew.
fn keep_joined(before: &mut EventClocks, event: &Event, number: u32, joined: &Clock)
    requires room { 0 < before.old.spare }
    ensures put { (a u : ℕ) → table_at before.new a u ≡ (if is_seq_cst_fence event.now && (a == number) then slice_index joined.now u else table_at before.old a u) }
    ensures spare { before.old.spare ≤ before.new.spare + 1 }
{
    if seq_cst_fence(event) {
        before.put(number, joined);
    }
}

/// What a SEQ_CST fence knows is joined to what those before it knew.
fn join_fence(joined: &mut Clock, event: &Event, clock: &Clock)
    ensures { (u : ℕ) → slice_index joined.new u ≡ (if is_seq_cst_fence event.now then max (slice_index joined.old u) (slice_index clock.now u) else slice_index joined.old u) }
{
    if seq_cst_fence(event) {
        joined.join(clock);
    }
}

/// A SEQ_CST fence is found by its thread.
fn index_fence(fences: &mut Vec<AccessIndex>, event: &Event, number: u32)
    requires number { number < 4294967295 }
    requires there { event.now.thread < length fences.old.items }
    requires room { 0 < (index_at fences.old.items event.now.thread).spare }
    requires above { All (λ entry. entry.event < suc number) (accesses_at fences.old.items event.now.thread) }
    ensures entries { (u : ℕ) → accesses_at fences.new.items u ≡ (if is_seq_cst_fence event.now && (u == event.now.thread) then record { event = suc number; position = number } ∷ accesses_at fences.old.items u else accesses_at fences.old.items u) }
    ensures spare { (u : ℕ) → (index_at fences.old.items u).spare ≤ (index_at fences.new.items u).spare + 1 }
    ensures len { length fences.new.items ≡ length fences.old.items }
{
    if seq_cst_fence(event) {
        indexes::push(fences, event.thread as usize, number + 1, number);
    }
}

/// Makes the indexes of all threads below 64, and room for that many more entries in each.
fn reserve_all(fences: &mut Vec<AccessIndex>, alloc: Global, count: usize) -> Result<(), AllocError>
    ensures same { (u : ℕ) → accesses_at fences.new.items u ≡ accesses_at fences.old.items u }
    ensures spare { (u : ℕ) → (index_at fences.old.items u).spare ≤ (index_at fences.new.items u).spare }
    ensures len { length fences.old.items ≤ length fences.new.items }
    ensures there { OnOk result (64 ≤ length fences.new.items) }
    ensures room { OnOk result ((t : ℕ) → t < 64 → count ≤ (index_at fences.new.items t).spare) }
{
    for thread in 0..64 {
        indexes::reserve(fences, alloc, thread, count)?;
    }
    Ok(())
}

impl Rows {
    ghost use Rattle.view_parts.specs.Holding.{RowsHold};
    ghost use Rattle.view_parts.specs.RowsAdded.{RowsAdded, RowsRoom};

    /// Rows that know nothing.
    pub fn new(alloc: Global) -> Rows
        ensures threads { (t u : ℕ) → row_at result.threads t u ≡ 0 }
        ensures left { (s u : ℕ) → table_at result.left s u ≡ 0 }
        ensures wakes { (i u : ℕ) → table_at result.wakes i u ≡ 0 }
        ensures fenced { (t u : ℕ) → row_at result.fenced t u ≡ 0 }
        ensures pending { (t u : ℕ) → row_at result.pending t u ≡ 0 }
        ensures joined { (u : ℕ) → slice_index result.joined u ≡ 0 }
        ensures fences { (u : ℕ) → accesses_at result.fences.items u ≡ [] }
    {
        Rows {
            threads: ThreadClocks::new(alloc),
            left: ClockTable::new(alloc),
            wakes: EventClocks::new(alloc),
            fenced: ThreadClocks::new(alloc),
            pending: ThreadClocks::new(alloc),
            before: EventClocks::new(alloc),
            joined: Clock::new(),
            fences: Vec::new(alloc),
            fence_room: 0,
        }
    }

    /// Makes room for that many more events by threads below 64.
    pub fn reserve(&mut self, alloc: Global, count: u32) -> Result<(), AllocError>
        ensures holds { (rule : Rule) (log : List Event) → RowsHold rule log self.old → RowsHold rule log self.new }
        ensures rooms { (n : ℕ) → RowsRoom n self.old → RowsRoom n self.new }
        ensures room { OnOk result (RowsRoom count self.new) }
    {
        let count = count as usize;
        self.threads.reserve()?;
        self.fenced.reserve()?;
        self.pending.reserve()?;
        self.left.reserve(count)?;
        self.wakes.reserve(count)?;
        self.before.reserve(count)?;
        if self.fence_room < count {
            reserve_all(&mut self.fences, alloc, count + MORE_FENCES)?;
            self.fence_room = count + MORE_FENCES;
        }
        Ok(())
    }

    /// Adds an event with its number, what it knows, and what it took.
    pub fn add(&mut self, event: &Event, number: u32, clock: &Clock, taken: &Option<Clock>)
        requires thread { event.now.thread < 64 }
        requires child { (t : ℕ) → makes_thread t event.now ≡ true → t < 64 }
        requires number { number < 4294967295 }
        requires room { RowsRoom 1 self.old }
        requires above { All (λ entry. entry.event < suc number) (accesses_at self.old.fences.items event.now.thread) }
        ensures added { RowsAdded self.old self.new number event.now clock.now taken.now }
        ensures room { (count : ℕ) → RowsRoom (count + 1) self.old → RowsRoom count self.new }
    {
        self.threads.set(event.thread, clock);
        start(&mut self.threads, event, clock);
        leave(&mut self.left, event, clock);
        wake(&mut self.wakes, event, number, clock);
        fence_off(&mut self.fenced, event, clock);
        pend(&mut self.pending, event.thread, taken);
        keep_joined(&mut self.before, event, number, &self.joined);
        join_fence(&mut self.joined, event, clock);
        index_fence(&mut self.fences, event, number);
        self.fence_room = self.fence_room.saturating_sub(1);
    }
}
