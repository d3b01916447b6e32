// What is kept of the touched cells, each at its place.
ghost use Rattle.std.specs.Prelude.{◌≡◌, ℕ, suc, ◌+◌, ◌<◌, ◌≤◌, true, false, List, ◌∷◌, length, slice_index_or, OnOk};
ghost use Rattle.mu_values.specs.declared.cells.CellId.{CellId};
ghost use Rattle.mem_axioms.specs.Events.{accesses, is_modification, position_of};
ghost use Rattle.mem_axioms.specs.declared.types.Rule.{Rule};
ghost use Rattle.mem_axioms.specs.declared.types.Event.{Event};
ghost use Rattle.clock_laws.specs.Clocks.{views, gives};
ghost use Rattle.clocks.specs.Knowing.{known_by};
ghost use Rattle.clocks.specs.Spans.{Spans};
ghost use Rattle.view_parts.specs.CellClocks.{Named};
ghost use Rattle.view_parts.specs.CellAdded.{CellRoom, CellBelow};
ghost use Rattle.view_parts.specs.CellRooms.{CellRoomAt};
ghost use Rattle.view_parts.specs.AddedAt.{AddedAt, CanAdd};
ghost use Rattle.view_parts.specs.Roominess.{CellFits};
ghost use Rattle.view_parts.specs.Holding.{CellsHold};
ghost use Rattle.view_parts.specs.declared.cell.CellViews.{CellViews};

use crate::cell::CellViews;
use crate::families::NextEvent;
use crate::places::CellPlaces;
use clocks::ClockList;
use mem_axioms::Rule;
use mem_axioms::event_facts::cell_of;
use mu_values::CellId;
use std::alloc::{AllocError, Global};

/// Adds an access to what is kept at a place.
fn add_at(
    kept: &mut Vec<CellViews>,
    place: usize,
    rule: Rule,
    clocks: &mut ClockList,
    next: NextEvent,
)
    requires number { next.number < 4294967295 }
    requires clocks { 2 ≤ clocks.old.spare }
    requires named { (d : CellViews) → Named clocks.old (slice_index_or kept.old.items place d) }
    requires there { place < length kept.old.items }
    requires room { (d : CellViews) → CellRoom 1 next.event.now.thread (slice_index_or kept.old.items place d) }
    requires below { (d : CellViews) → CellBelow (suc next.number) next.event.now.thread (slice_index_or kept.old.items place d) }
    requires position { (d : CellViews) → is_modification next.event.now ≡ true → position_of next.event.now ≡ length (slice_index_or kept.old.items place d).released.items }
    requires few { (d : CellViews) → length (slice_index_or kept.old.items place d).history.values < 4294967295 }
    ensures added { AddedAt rule clocks.old clocks.new kept.old.items kept.new.items place next.entry.number next.entry.event.now next.entry.given.now }
    ensures clocks { clocks.old.spare ≤ clocks.new.spare + 2 }
{
    kept[place].add(rule, clocks, next);
}

/// Adds an event to what is kept of the cell that it accesses.
pub fn add_access<P: CellPlaces>(
    rule: Rule,
    clocks: &mut ClockList,
    places: &P,
    kept: &mut Vec<CellViews>,
    next: NextEvent,
)
    requires number { next.number < 4294967295 }
    requires clocks { 2 ≤ clocks.old.spare }
    requires can { (cell : CellId) → accesses cell next.event.now ≡ true → CanAdd next.number next.event.now clocks.old (P.number places.now) kept.old.items cell }
    ensures holds { (log : List Event) → next.entry.number ≡ length log → ((u : ℕ) → known_by next.entry.given.now u ≡ gives (views rule log) next.entry.number next.entry.event.now u) → CellsHold rule log clocks.old (P.number places.now) kept.old.items → CellsHold rule (next.entry.event.now ∷ log) clocks.new (P.number places.now) kept.new.items }
    ensures clocks { clocks.old.spare ≤ clocks.new.spare + 2 }
    ensures room { (count : ℕ) (cell : CellId) → accesses cell next.entry.event.now ≡ true → CellRoomAt (count + 1) next.entry.event.now.thread (P.number places.now) kept.old.items cell → CellRoomAt count next.entry.event.now.thread (P.number places.now) kept.new.items cell }
    ensures same { ((cell : CellId) → accesses cell next.entry.event.now ≡ false) → kept.new.items ≡ kept.old.items }
    ensures len { length kept.new.items ≡ length kept.old.items }
{
    if let Some(cell) = cell_of(next.event) {
        if let Some(place) = places.find(cell) {
            add_at(kept, place, rule, clocks, next);
        }
    }
}

/// Gives a place to a cell that has none, with nothing kept there yet.
fn make_place<P: CellPlaces>(
    places: &mut P,
    kept: &mut Vec<CellViews>,
    alloc: Global,
    cell: CellId,
) -> Result<(), AllocError>
    requires placed { length (P.owners places.old) ≡ length kept.old.items }
    requires none { P.number places.old cell ≡ 0 }
    ensures placed { length (P.owners places.new) ≡ length kept.new.items }
    ensures holds { (rule : Rule) (log : List Event) (clocks : Spans) → CellsHold rule log clocks (P.number places.old) kept.old.items → CellsHold rule log clocks (P.number places.new) kept.new.items }
    ensures touched { OnOk result (0 < P.number places.new cell) }
{
    let fresh = CellViews::new(alloc)?;
    kept.reserve(1)?;
    places.touch(alloc, cell)?;
    kept.push_reserved(fresh);
    Ok(())
}

/// Gives the cell a place if it has none.
fn touch<P: CellPlaces>(
    places: &mut P,
    kept: &mut Vec<CellViews>,
    alloc: Global,
    cell: CellId,
) -> Result<(), AllocError>
    requires placed { length (P.owners places.old) ≡ length kept.old.items }
    ensures placed { length (P.owners places.new) ≡ length kept.new.items }
    ensures holds { (rule : Rule) (log : List Event) (clocks : Spans) → CellsHold rule log clocks (P.number places.old) kept.old.items → CellsHold rule log clocks (P.number places.new) kept.new.items }
    ensures touched { OnOk result (0 < P.number places.new cell) }
{
    match places.find(cell) {
        Some(_) => Ok(()),
        None => make_place(places, kept, alloc, cell),
    }
}

/// Makes room for that many more accesses of a touched cell by a thread.
fn reserve<P: CellPlaces>(
    places: &P,
    kept: &mut Vec<CellViews>,
    alloc: Global,
    cell: CellId,
    thread: u32,
    count: u32,
) -> Result<(), AllocError>
    requires thread { thread < 64 }
    requires placed { length (P.owners places.now) ≡ length kept.old.items }
    requires touched { 0 < P.number places.now cell }
    ensures placed { length (P.owners places.now) ≡ length kept.new.items }
    ensures holds { (rule : Rule) (log : List Event) (clocks : Spans) → CellsHold rule log clocks (P.number places.now) kept.old.items → CellsHold rule log clocks (P.number places.now) kept.new.items }
    ensures room { OnOk result (CellRoomAt count thread (P.number places.now) kept.new.items cell) }
{
    let Some(place) = places.find(cell) else {
        unreachable!()
    };
    kept[place].reserve(alloc, thread, count)
}

/// Makes room for the clocks of that many events: for each what its position releases, and what its own sequences do.
pub fn reserve_clocks(clocks: &mut ClockList, events: u32) -> Result<(), AllocError>
    ensures holds { (rule : Rule) (log : List Event) (numbers : CellId → ℕ) (kept : List CellViews) → CellsHold rule log clocks.old numbers kept → CellsHold rule log clocks.new numbers kept }
    ensures room { OnOk result (events + events ≤ clocks.new.spare) }
    ensures spare { clocks.old.spare ≤ clocks.new.spare }
{
    clocks.reserve(events as usize + events as usize)
}

/// Makes room for that many accesses by a thread of a cell, if there is one. A number of 64 or more is no thread's, and
/// takes no room.
pub fn reserve_step<P: CellPlaces>(
    places: &mut P,
    kept: &mut Vec<CellViews>,
    alloc: Global,
    thread: u32,
    cell: Option<CellId>,
    events: u32,
) -> Result<(), AllocError>
    requires placed { length (P.owners places.old) ≡ length kept.old.items }
    ensures placed { length (P.owners places.new) ≡ length kept.new.items }
    ensures holds { (rule : Rule) (log : List Event) (clocks : Spans) → CellsHold rule log clocks (P.number places.old) kept.old.items → CellsHold rule log clocks (P.number places.new) kept.new.items }
    ensures room { OnOk result (CellFits (record { thread = thread; cell = cell; events = events }) (P.number places.new) kept.new.items) }
{
    let Some(accessed) = cell else {
        return Ok(());
    };
    if 64 <= thread {
        return Ok(());
    }
    touch(places, kept, alloc, accessed)?;
    reserve(places, kept, alloc, accessed, thread, events)
}
