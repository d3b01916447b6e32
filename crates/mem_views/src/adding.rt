// An access is added to what is kept of its cell, whose place was found before.
ghost use Rattle.std.specs.Prelude.{◌≡◌, ℕ, suc, ◌+◌, ◌<◌, ◌≤◌, true, false, List, ◌∷◌, length, slice_index_or, MatchOption};
ghost use Rattle.mu_values.specs.declared.cells.CellId.{CellId};
ghost use Rattle.mem_axioms.specs.Events.{accesses, is_modification, position_of};
ghost use Rattle.mem_axioms.specs.declared.types.Rule.{Rule};
ghost use Rattle.mem_axioms.specs.declared.types.Event.{Event};
ghost use Rattle.clock_laws.specs.Clocks.{views, gives};
ghost use Rattle.clocks.specs.Knowing.{known_by};
ghost use Rattle.view_parts.specs.CellClocks.{Named};
ghost use Rattle.view_parts.specs.CellAdded.{CellRoom, CellBelow};
ghost use Rattle.view_parts.specs.CellRooms.{CellRoomAt};
ghost use Rattle.view_parts.specs.AddedAt.{AddedAt, CanAdd};
ghost use Rattle.view_parts.specs.Holding.{CellsHold};
ghost use Rattle.view_parts.specs.declared.cell.CellViews.{CellViews};
ghost use Rattle.mem_views.specs.Placing.{place_in};

use crate::places::Places;
use clocks::ClockList;
use mem_axioms::Rule;
use mem_axioms::event_facts::cell_of;
use view_parts::{CellViews, NextEvent};

/// Adds an access to what is kept at a place.
fn add_at(
    kept: &mut Vec<CellViews>,
    place: usize,
    rule: Rule,
    clocks: &mut ClockList,
    next: NextEvent,
)
    requires number { next.number < 4294967295 }
    requires clocks { 2 ≤ clocks.old.spare }
    requires named { (d : CellViews) → Named clocks.old (slice_index_or kept.old.items place d) }
    requires there { place < length kept.old.items }
    requires room { (d : CellViews) → CellRoom 1 next.event.now.thread (slice_index_or kept.old.items place d) }
    requires below { (d : CellViews) → CellBelow (suc next.number) next.event.now.thread (slice_index_or kept.old.items place d) }
    requires position { (d : CellViews) → is_modification next.event.now ≡ true → position_of next.event.now ≡ length (slice_index_or kept.old.items place d).released.items }
    requires few { (d : CellViews) → length (slice_index_or kept.old.items place d).history.values < 4294967295 }
    ensures added { AddedAt rule clocks.old clocks.new kept.old.items kept.new.items place next.entry.number next.entry.event.now next.entry.given.now }
    ensures clocks { clocks.old.spare ≤ clocks.new.spare + 2 }
{
    kept[place].add(rule, clocks, next);
}

impl Places {
    /// Adds an event to what is kept of the cell that it accesses, at the place that this cell was found to have.
    pub(crate) fn add_access(
        &self,
        rule: Rule,
        clocks: &mut ClockList,
        place: Option<usize>,
        kept: &mut Vec<CellViews>,
        next: NextEvent,
    )
        requires number { next.number < 4294967295 }
        requires clocks { 2 ≤ clocks.old.spare }
        requires found { (cell : CellId) → accesses cell next.event.now ≡ true → MatchOption place (place_in self.now.objects.items cell ≡ 0) (λ n. place_in self.now.objects.items cell ≡ n + 1) }
        requires can { (cell : CellId) → accesses cell next.event.now ≡ true → CanAdd next.number next.event.now clocks.old (place_in self.now.objects.items) kept.old.items cell }
        ensures holds { (log : List Event) → next.entry.number ≡ length log → ((u : ℕ) → known_by next.entry.given.now u ≡ gives (views rule log) next.entry.number next.entry.event.now u) → CellsHold rule log clocks.old (place_in self.now.objects.items) kept.old.items → CellsHold rule (next.entry.event.now ∷ log) clocks.new (place_in self.now.objects.items) kept.new.items }
        ensures clocks { clocks.old.spare ≤ clocks.new.spare + 2 }
        ensures room { (count : ℕ) (cell : CellId) → accesses cell next.entry.event.now ≡ true → CellRoomAt (count + 1) next.entry.event.now.thread (place_in self.now.objects.items) kept.old.items cell → CellRoomAt count next.entry.event.now.thread (place_in self.now.objects.items) kept.new.items cell }
        ensures same { ((cell : CellId) → accesses cell next.entry.event.now ≡ false) → kept.new.items ≡ kept.old.items }
        ensures len { length kept.new.items ≡ length kept.old.items }
    {
        if let Some(_cell) = cell_of(next.event) {
            if let Some(place) = place {
                add_at(kept, place, rule, clocks, next);
            }
        }
    }
}
