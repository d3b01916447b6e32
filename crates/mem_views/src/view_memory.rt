// The memory of histories and clocks.
ghost use Rattle.std.specs.Prelude.{◌≡◌, ℕ, ◌+◌, ◌-◌, ◌*◌, ◌^◌, ◌<◌, ◌≤◌, true, false, if◌then◌else◌, None, Some, List, [], ◌∷◌, ◌++◌, map, length, take, slice_index, slice_get, vec_len, vec_capacity, OnOk, OnErr, MatchOption, IsNone, IsSome, IfSome};
ghost use Rattle.mu_values.specs.SameScalar.{same_scalar};
ghost use Rattle.mu_values.specs.declared.scalars.Scalar.TheVariants.{Null};
ghost use Rattle.mem_axioms.specs.Events.{accesses, is_seq_cst};
ghost use Rattle.mem_axioms.specs.Logs.{newest};
ghost use Rattle.mem_axioms.specs.Form.{value_at};
ghost use Rattle.mem_axioms.specs.Floor.{floor};
ghost use Rattle.mem_axioms.specs.Choices.{chosen_at, holds, choices, options};
ghost use Rattle.mem_axioms.specs.Reads.{reads, excluded_by, below};
ghost use Rattle.mem_axioms.specs.Objects.{initial_of, HasCell};
ghost use Rattle.mem_axioms.specs.EventFits.{EventFits, is_thread};
ghost use Rattle.mem_axioms.specs.Races.{race};
ghost use Rattle.mem_axioms.specs.Rooms.{HasRoom, one_less};
ghost use Rattle.mem_axioms.specs.declared.types.Event.{Event};
ghost use Rattle.mem_axioms.specs.declared.types.Kind.TheVariants.{NewThread};
ghost use Rattle.clock_laws.specs.Clocks.{views, knew, knows, pends};
ghost use Rattle.clock_laws.specs.ViewFloor.{view_limit};
ghost use Rattle.clocks.specs.Knowing.{known_by};
ghost use Rattle.mem_views.specs.Holding.{LogHolds, MadeHolds};
ghost use Rattle.mem_views.specs.Placing.{place_in};
ghost use Rattle.view_parts.specs.Holding.{values_of, RowsHold, CellHolds, ClocksHold, CellsHold, IsUntouched};
ghost use Rattle.write_history.specs.Occurrences.{occurrences};
ghost use Rattle.view_parts.specs.RowsAdded.{RowsRoom};
ghost use Rattle.view_parts.specs.Roominess.{CellFits};
ghost use Rattle.view_parts.specs.Answers.{IsKnown};
ghost use Rattle.mem_views.specs.Bounds.{search_bound, failure_options};
ghost use Rattle.mem_views.specs.Differing.{differs_from, differing, floor_bound, count_bound, looks_bound};

use crate::places::Places;
use clocks::{Clock, ClockList};
use mem_axioms::event_facts::{cell_of, is_same_scalar, seq_cst};
use mem_axioms::{Chosen, Event, Kind, Memory, Race, Room, Rule, Wanted};
use mu_base::{Order, Steps};
use mu_values::{CellId, Scalar, Slots, Value};
use std::alloc::{AllocError, Global};
use std::sync::ledger::Ledger;
use view_parts::floors::{fences_before, found_floor, greatest_of_kinds, last_fence};
use view_parts::gains::{gain, given_by, taken_from};
use view_parts::look_ups::greater;
use view_parts::racing::first_racing;
use view_parts::{CellPlaces, CellViews, NextEvent, Rows, kept_cells};
use write_history::Tape;

/// A memory that keeps clocks, the values of each touched cell, and its accesses by thread, in place of whole logs. What it
/// answers is what the memory of whole logs answers, and it looks at few entries for that.
#[derive(Drop)]
pub struct ViewMemory {
    alloc: Global,
    rule: Rule,
    // The initial scalars of all objects, in one row.
    objects: Slots,
    // All events. No call reads them.
    tape: Tape,
    // The number of the next event.
    next: u32,
    // The threads of the run, once there was room for an event.
    made: Vec<u32>,
    rows: Rows,
    // The clocks of positions and sequences, which the cells name by numbers.
    clocks: ClockList,
    places: Places,
    // What is kept of each touched cell, by its place.
    kept: Vec<CellViews>,
    room: Room,
    ghost counted: { next ≡ length tape.events },
    ghost placed: { length places.owners.items ≡ length kept.items },
    ghost log_holds: { LogHolds rule objects.values tape.events },
    ghost made_holds: { MadeHolds made.items tape.events },
    ghost rows_hold: { RowsHold rule tape.events rows },
    ghost cells_hold: { CellsHold rule tape.events clocks (place_in places.objects.items) kept.items },
    ghost tape_fits: { room.events ≤ tape.spare },
    ghost made_fits: { vec_len made + room.events ≤ vec_capacity made },
    ghost made_some: { 0 < room.events → 0 < length made.items },
    ghost rows_fit: { RowsRoom room.events rows },
    ghost clocks_fit: { room.events + room.events ≤ clocks.spare },
    ghost cell_fits: { CellFits room (place_in places.objects.items) kept.items },
}

/// Where a read may take so many positions or fewer, each is looked at for another value. More are searched.
const FEW: u32 = 128;

/// A read of a cell: a load, or a comparison that fails.
#[derive(Clone, Copy)]
struct Read {
    /// The thread that reads.
    thread: u32,
    /// The cell that it reads.
    cell: CellId,
    /// The order of the read.
    order: Order,
    /// The value that may not be read, if there is one.
    excluded: Option<Scalar>,
}

/// The positions of a cell from a floor on that have another value.
#[derive(Clone, Copy)]
struct OtherPositions {
    /// The cell.
    cell: CellId,
    /// The least position that counts.
    floor: u32,
    /// The value that they do not have.
    scalar: Scalar,
}

/// Adds the thread that the event makes, if it makes one.
fn add_thread(made: &mut Vec<u32>, event: &Event)
    requires { vec_len made.old < vec_capacity made.old }
    ensures made { made.new.items ≡ elim event.now.kind [ NewThread child ↦ made.old.items ++ child ∷ [] | _ ↦ made.old.items ] }
    ensures len { vec_len made.new ≤ vec_len made.old + 1 }
    ensures capacity { vec_capacity made.old ≤ vec_capacity made.new }
{
    if let Kind::NewThread { child } = event.kind {
        made.push_reserved(child);
    }
}

/// Makes room for that many more threads, and puts thread 0 on the list.
fn reserve_threads(made: &mut Vec<u32>, count: usize) -> Result<(), AllocError>
    ensures holds { (log : List Event) → MadeHolds made.old.items log → MadeHolds made.new.items log }
    ensures some { OnOk result (0 < length made.new.items) }
    ensures room { OnOk result (vec_len made.new + count ≤ vec_capacity made.new) }
{
    if made.is_empty() {
        made.push(0)?;
    }
    made.reserve(count)
}

impl ViewMemory {
    /// A memory with an empty log, no objects and no room, whose release sequences follow the rule.
    pub fn new(alloc: Global, rule: Rule) -> ViewMemory
        ensures log { ⟦<ViewMemory as Memory>⟧.log result ≡ [] }
        ensures objects { ⟦<ViewMemory as Memory>⟧.objects result ≡ [] }
        ensures rule { ⟦<ViewMemory as Memory>⟧.rule result ≡ rule }
        ensures room { ⟦<ViewMemory as Memory>⟧.room result ≡ record { thread = 0; cell = None; events = 0 } }
    {
        ViewMemory {
            alloc,
            rule,
            objects: Slots::new(alloc),
            tape: Tape::new(alloc),
            next: 0,
            made: Vec::new(alloc),
            rows: Rows::new(alloc),
            clocks: ClockList::new(alloc),
            places: Places::new(alloc),
            kept: Vec::new(alloc),
            room: Room {
                thread: 0,
                cell: None,
                events: 0,
            },
        }
    }

    /// The place of the cell that an event accesses, if it has one.
    fn place_of(&self, event: &Event) -> Option<usize>
        ensures found { (cell : CellId) → accesses cell event.now ≡ true → MatchOption result (place_in self.now.places.objects.items cell ≡ 0) (λ place. place_in self.now.places.objects.items cell ≡ place + 1) }
        ensures there { IfSome result (λ place. place < length self.now.kept.items) }
    {
        let cell = cell_of(event)?;
        self.places.find(cell)
    }

    /// What is kept at the place of a cell, if it has one.
    fn views_at(&self, place: Option<usize>) -> Option<&CellViews>
        requires there { IfSome place (λ n. n < length self.now.kept.items) }
        ensures views { (cell : CellId) → MatchOption place (place_in self.now.places.objects.items cell ≡ 0) (λ n. place_in self.now.places.objects.items cell ≡ n + 1) → MatchOption result (IsUntouched self.now.tape.events cell) (λ kept. CellHolds self.now.tape.events cell kept.now) }
        ensures clocks { (cell : CellId) → MatchOption place (place_in self.now.places.objects.items cell ≡ 0) (λ n. place_in self.now.places.objects.items cell ≡ n + 1) → IfSome result (λ kept. ClocksHold self.now.rule self.now.tape.events self.now.clocks cell kept.now) }
    {
        match place {
            Some(place) => Some(&self.kept[place]),
            None => None,
        }
    }

    /// What is kept of a cell, if it was touched.
    fn views_of(&self, cell: CellId) -> Option<&CellViews>
        ensures views { MatchOption result (IsUntouched self.now.tape.events cell) (λ kept. CellHolds self.now.tape.events cell kept.now) }
        ensures clocks { IfSome result (λ kept. ClocksHold self.now.rule self.now.tape.events self.now.clocks cell kept.now) }
    {
        match self.places.find(cell) {
            Some(place) => Some(&self.kept[place]),
            None => None,
        }
    }

    /// What an event leaves for a later acquire fence of its thread.
    fn taken(&self, event: &Event, kept: Option<&CellViews>) -> Option<Clock>
        requires views { (cell : CellId) → accesses cell event.now ≡ true → MatchOption kept (IsUntouched self.now.tape.events cell) (λ views. CellHolds self.now.tape.events cell views.now) }
        requires clocks { (cell : CellId) → accesses cell event.now ≡ true → IfSome kept (λ views. ClocksHold self.now.rule self.now.tape.events self.now.clocks cell views.now) }
        ensures { (u : ℕ) → known_by result u ≡ pends (views self.now.rule self.now.tape.events) event.now u }
    {
        let Some(_cell) = cell_of(event) else {
            return None;
        };
        match kept {
            Some(kept) => taken_from(&self.clocks, kept, event),
            None => None,
        }
    }

    /// What happens before an event, with what it gains.
    fn known_before(&self, event: &Event, taken: &Option<Clock>) -> Clock
        requires fits { EventFits self.now.rule self.now.objects.values self.now.tape.events event.now }
        requires taken { (u : ℕ) → known_by taken.now u ≡ pends (views self.now.rule self.now.tape.events) event.now u }
        ensures { (u : ℕ) → slice_index result u ≡ knew (views self.now.rule self.now.tape.events) event.now u }
    {
        let mut clock = *self.rows.threads.of(event.thread);
        gain(&mut clock, &self.rows, event, taken);
        clock
    }

    /// The least earlier event that races with one before which this is known.
    fn race_of<L: Ledger>(
        &self,
        event: &Event,
        kept: Option<&CellViews>,
        known: &Clock,
        steps: &mut Steps<L>,
    ) -> Option<u32>
        requires views { (cell : CellId) → accesses cell event.now ≡ true → MatchOption kept (IsUntouched self.now.tape.events cell) (λ views. CellHolds self.now.tape.events cell views.now) }
        requires fits { EventFits self.now.rule self.now.objects.values self.now.tape.events event.now }
        requires known { (u : ℕ) → slice_index known.now u ≡ knew (views self.now.rule self.now.tape.events) event.now u }
        ensures race { result ≡ race self.now.rule self.now.tape.events event.now }
        ensures cost { (d : ℕ) → length self.now.tape.events < 2 ^ d → steps.new ≤ steps.old + search_bound self.now.tape.events d }
    {
        let Some(cell) = cell_of(event) else {
            return None;
        };
        match kept {
            Some(kept) => self.race_in(cell, kept, event, known, steps),
            None => None,
        }
    }

    /// The least earlier event of a touched cell that races with an access of the cell.
    fn race_in<L: Ledger>(
        &self,
        cell: CellId,
        kept: &CellViews,
        event: &Event,
        known: &Clock,
        steps: &mut Steps<L>,
    ) -> Option<u32>
        requires fits { EventFits self.now.rule self.now.objects.values self.now.tape.events event.now }
        requires access { accesses cell event.now ≡ true }
        requires holds { CellHolds self.now.tape.events cell kept.now }
        requires known { (u : ℕ) → slice_index known.now u ≡ knew (views self.now.rule self.now.tape.events) event.now u }
        ensures race { result ≡ race self.now.rule self.now.tape.events event.now }
        ensures cost { (d : ℕ) → length self.now.tape.events < 2 ^ d → steps.new ≤ steps.old + search_bound self.now.tape.events d }
    {
        match first_racing(kept, &self.made, event, known, steps) {
            Some(first) => Some(first - 1),
            None => None,
        }
    }

    /// Adds an event that races with no earlier one, with what it knows and what it took.
    fn add(&mut self, event: Event, place: Option<usize>, clock: &Clock, taken: &Option<Clock>)
        requires fits { EventFits self.old.rule self.old.objects.values self.old.tape.events event }
        requires alone { race self.old.rule self.old.tape.events event ≡ None }
        requires room { HasRoom self.old.room event }
        requires count { length self.old.tape.events + 1 < 4294967295 }
        requires knows { (u : ℕ) → slice_index clock.now u ≡ knows (views self.old.rule self.old.tape.events) (length self.old.tape.events) event u }
        requires taken { (u : ℕ) → known_by taken.now u ≡ pends (views self.old.rule self.old.tape.events) event u }
        requires found { (cell : CellId) → accesses cell event ≡ true → MatchOption place (place_in self.old.places.objects.items cell ≡ 0) (λ n. place_in self.old.places.objects.items cell ≡ n + 1) }
        ensures log { self.new.tape.events ≡ event ∷ self.old.tape.events }
        ensures room { self.new.room ≡ one_less self.old.room }
        ensures objects { self.new.objects ≡ self.old.objects }
        ensures rule { self.new.rule ≡ self.old.rule }
    {
        let given = given_by(&event, clock, self.rows.fenced.of(event.thread));
        self.rows.add(&event, self.next, clock, taken);
        self.places.add_access(
            self.rule,
            &mut self.clocks,
            place,
            &mut self.kept,
            NextEvent {
                event: &event,
                number: self.next,
                given: &given,
            },
        );
        add_thread(&mut self.made, &event);
        self.tape.push(event);
        self.next += 1;
        self.room.events -= 1;
    }

    /// The number of a SEQ_CST load, or of the last SEQ_CST fence that the thread knows, or 0.
    fn limit<L: Ledger>(
        &self,
        thread: u32,
        known: &Clock,
        order: Order,
        steps: &mut Steps<L>,
    ) -> u32
        requires { IsKnown self.now.rule self.now.tape.events thread known.now }
        ensures limit { result ≡ view_limit (views self.now.rule self.now.tape.events) self.now.tape.events thread order }
        ensures cost { (d : ℕ) → length self.now.tape.events < 2 ^ d → steps.new ≤ steps.old + length self.now.made.items * (d + 1) }
    {
        if seq_cst(order) {
            return self.next;
        }
        last_fence(&self.rows, &self.made, known, steps)
    }

    /// The least position that a load of the cell may read.
    fn floor<L: Ledger>(
        &self,
        kept: Option<&CellViews>,
        thread: u32,
        cell: CellId,
        order: Order,
        steps: &mut Steps<L>,
    ) -> u32
        requires kept { MatchOption kept (IsUntouched self.now.tape.events cell) (λ views. CellHolds self.now.tape.events cell views.now) }
        ensures floor { result ≡ floor self.now.rule self.now.tape.events thread cell order }
        ensures cost { (d : ℕ) → length self.now.tape.events < 2 ^ d → steps.new ≤ steps.old + floor_bound self.now.tape.events d }
    {
        let Some(kept) = kept else {
            return 0;
        };
        let known = self.rows.threads.of(thread);
        let limit = self.limit(thread, known, order, steps);
        // Without a fence neither SEQ_CST accesses nor fences raise the floor.
        if limit == 0 && !seq_cst(order) {
            return found_floor(kept, &self.made, known, steps);
        }
        let below = Clock::below(limit);
        let before = fences_before(&self.rows, order, limit);
        greatest_of_kinds(kept, &self.made, known, &below, &before, steps)
    }

    /// The newest position of the cell.
    fn newest(&self, kept: Option<&CellViews>, cell: CellId) -> u32
        requires kept { MatchOption kept (IsUntouched self.now.tape.events cell) (λ views. CellHolds self.now.tape.events cell views.now) }
        ensures newest { result ≡ newest self.now.tape.events cell }
        ensures few { result ≤ length self.now.tape.events }
    {
        match kept {
            Some(kept) => kept.history.newest(),
            None => 0,
        }
    }

    /// The initial scalar of the cell.
    fn initial(&self, cell: CellId) -> Scalar
        requires { HasCell self.now.objects.values cell }
        ensures { result ≡ initial_of self.now.objects.values cell }
    {
        self.objects.at(cell.object as usize)[cell.at as usize]
    }

    /// The value at a position of the cell.
    fn value<L: Ledger>(
        &self,
        kept: Option<&CellViews>,
        cell: CellId,
        position: u32,
        steps: &mut Steps<L>,
    ) -> Scalar
        requires kept { MatchOption kept (IsUntouched self.now.tape.events cell) (λ views. CellHolds self.now.tape.events cell views.now) }
        requires cell { HasCell self.now.objects.values cell }
        requires position { position ≤ newest self.now.tape.events cell }
        ensures value { result ≡ value_at (initial_of self.now.objects.values) self.now.tape.events cell position }
        ensures cost { steps.new ≤ steps.old + 1 }
    {
        if position == 0 {
            return self.initial(cell);
        }
        match kept {
            Some(kept) => kept.history.value(position, steps),
            None => self.initial(cell),
        }
    }

    /// Whether the value at the position is the scalar.
    fn holds<L: Ledger>(
        &self,
        kept: Option<&CellViews>,
        cell: CellId,
        scalar: Scalar,
        position: u32,
        steps: &mut Steps<L>,
    ) -> bool
        requires kept { MatchOption kept (IsUntouched self.now.tape.events cell) (λ views. CellHolds self.now.tape.events cell views.now) }
        requires cell { HasCell self.now.objects.values cell }
        requires position { position ≤ newest self.now.tape.events cell }
        ensures holds { result ≡ holds (initial_of self.now.objects.values) self.now.tape.events cell scalar position }
        ensures cost { steps.new ≤ steps.old + 1 }
    {
        is_same_scalar(self.value(kept, cell, position, steps), scalar)
    }

    /// Whether the position is from the floor on and has another value.
    fn differs<L: Ledger>(
        &self,
        kept: Option<&CellViews>,
        others: OtherPositions,
        position: u32,
        steps: &mut Steps<L>,
    ) -> bool
        requires kept { MatchOption kept (IsUntouched self.now.tape.events others.cell) (λ views. CellHolds self.now.tape.events others.cell views.now) }
        requires cell { HasCell self.now.objects.values others.cell }
        requires position { position ≤ newest self.now.tape.events others.cell }
        ensures differs { result ≡ differs_from (initial_of self.now.objects.values) self.now.tape.events others.cell others.floor others.scalar position }
        ensures cost { steps.new ≤ steps.old + 1 }
    {
        others.floor <= position && !self.holds(kept, others.cell, others.scalar, position, steps)
    }

    /// Position 0, if it is from the floor on and has another value: 1 or 0 positions.
    fn count_initial<L: Ledger>(
        &self,
        kept: Option<&CellViews>,
        others: OtherPositions,
        steps: &mut Steps<L>,
    ) -> u32
        requires kept { MatchOption kept (IsUntouched self.now.tape.events others.cell) (λ views. CellHolds self.now.tape.events others.cell views.now) }
        requires cell { HasCell self.now.objects.values others.cell }
        ensures count { result ≡ length (below (differs_from (initial_of self.now.objects.values) self.now.tape.events others.cell others.floor others.scalar) 1) }
        ensures at_most { result ≤ 1 }
        ensures cost { steps.new ≤ steps.old + 1 }
    {
        if self.differs(kept, others, 0, steps) {
            1
        } else {
            0
        }
    }

    /// How many of the later positions, from one up to another, that one not among them, have another value.
    fn count_later<L: Ledger>(
        &self,
        kept: Option<&CellViews>,
        cell: CellId,
        from: u32,
        end: u32,
        scalar: Scalar,
        steps: &mut Steps<L>,
    ) -> u32
        requires kept { MatchOption kept (IsUntouched self.now.tape.events cell) (λ views. CellHolds self.now.tape.events cell views.now) }
        requires later { 0 < from }
        requires from { from ≤ end }
        requires end { end ≤ newest self.now.tape.events cell + 1 }
        ensures count { result + occurrences scalar (take end (values_of self.now.tape.events cell)) ≡ end - from + occurrences scalar (take from (values_of self.now.tape.events cell)) }
        ensures at_most { result ≤ end - from }
        ensures cost { (d : ℕ) → length self.now.tape.events < 2 ^ d → steps.new ≤ steps.old + (2 * d + 130) }
    {
        match kept {
            Some(kept) => kept.history.count_others(scalar, from, end, steps),
            None => 0,
        }
    }

    /// How many positions below one, from the floor on, have another value.
    fn count_differing<L: Ledger>(
        &self,
        kept: Option<&CellViews>,
        others: OtherPositions,
        end: u32,
        steps: &mut Steps<L>,
    ) -> u32
        requires kept { MatchOption kept (IsUntouched self.now.tape.events others.cell) (λ views. CellHolds self.now.tape.events others.cell views.now) }
        requires cell { HasCell self.now.objects.values others.cell }
        requires floor { others.floor ≤ end }
        requires some { 0 < end }
        requires end { end ≤ newest self.now.tape.events others.cell + 1 }
        ensures count { result ≡ length (below (differs_from (initial_of self.now.objects.values) self.now.tape.events others.cell others.floor others.scalar) end) }
        ensures at_most { result ≤ end }
        ensures cost { (d : ℕ) → length self.now.tape.events < 2 ^ d → steps.new ≤ steps.old + count_bound d }
    {
        let initial = self.count_initial(kept, others, steps);
        let from = greater(others.floor, 1);
        initial + self.count_later(kept, others.cell, from, end, others.scalar, steps)
    }

    /// How many positions from the floor on have another value, by a look at each.
    fn count_in_turn<L: Ledger>(
        &self,
        kept: Option<&CellViews>,
        others: OtherPositions,
        last: u32,
        steps: &mut Steps<L>,
    ) -> u32
        requires kept { MatchOption kept (IsUntouched self.now.tape.events others.cell) (λ views. CellHolds self.now.tape.events others.cell views.now) }
        requires cell { HasCell self.now.objects.values others.cell }
        requires last { last ≡ newest self.now.tape.events others.cell }
        requires floor { others.floor ≤ last }
        requires few { last + 1 < 4294967295 }
        ensures count { result ≡ length (differing (initial_of self.now.objects.values) self.now.tape.events others.cell others.floor others.scalar last) }
        ensures at_most { result ≤ last + 1 }
        ensures cost { steps.new ≤ steps.old + (last + 1 - others.floor) }
    {
        let mut count = 0;
        for position in others.floor..last + 1 {
            if self.differs(kept, others, position, steps) {
                count += 1;
            }
        }
        count
    }

    /// How many positions from the floor on have another value. Of few each is looked at.
    fn count_others<L: Ledger>(
        &self,
        kept: Option<&CellViews>,
        others: OtherPositions,
        last: u32,
        steps: &mut Steps<L>,
    ) -> u32
        requires kept { MatchOption kept (IsUntouched self.now.tape.events others.cell) (λ views. CellHolds self.now.tape.events others.cell views.now) }
        requires cell { HasCell self.now.objects.values others.cell }
        requires last { last ≡ newest self.now.tape.events others.cell }
        requires floor { others.floor ≤ last }
        requires few { last + 1 < 4294967295 }
        ensures count { result ≡ length (differing (initial_of self.now.objects.values) self.now.tape.events others.cell others.floor others.scalar last) }
        ensures at_most { result ≤ last + 1 }
        ensures cost { (d : ℕ) → length self.now.tape.events < 2 ^ d → steps.new ≤ steps.old + looks_bound d (last + 1 - others.floor) (Some others.scalar) }
    {
        if last - others.floor < FEW {
            return self.count_in_turn(kept, others, last, steps);
        }
        self.count_differing(kept, others, last + 1, steps)
    }

    /// The n-th position from the floor on that has another value, from the newest down, by a look at each.
    fn nth_in_turn<L: Ledger>(
        &self,
        kept: Option<&CellViews>,
        others: OtherPositions,
        last: u32,
        n: u32,
        steps: &mut Steps<L>,
    ) -> u32
        requires kept { MatchOption kept (IsUntouched self.now.tape.events others.cell) (λ views. CellHolds self.now.tape.events others.cell views.now) }
        requires cell { HasCell self.now.objects.values others.cell }
        requires last { last ≡ newest self.now.tape.events others.cell }
        requires floor { others.floor ≤ last }
        requires few { last + 1 < 4294967295 }
        requires n { n < length (differing (initial_of self.now.objects.values) self.now.tape.events others.cell others.floor others.scalar last) }
        ensures nth { slice_get (differing (initial_of self.now.objects.values) self.now.tape.events others.cell others.floor others.scalar last) n ≡ Some result }
        ensures at_most { result ≤ last }
        ensures cost { steps.new ≤ steps.old + (last + 1 - others.floor) }
    {
        let mut newer = 0;
        for index in 0..last + 1 - others.floor {
            let position = last - index;
            if self.differs(kept, others, position, steps) {
                if newer == n {
                    return position;
                }
                newer += 1;
            }
        }
        unreachable!()
    }

    /// The n-th position that has another value, from the newest down, by two searches. The history has NULL in the place of
    /// the initial scalar, so position 0 is what is left where no later position is the n-th.
    fn nth_searched<L: Ledger>(
        &self,
        kept: Option<&CellViews>,
        others: OtherPositions,
        last: u32,
        n: u32,
        steps: &mut Steps<L>,
    ) -> u32
        requires kept { MatchOption kept (IsUntouched self.now.tape.events others.cell) (λ views. CellHolds self.now.tape.events others.cell views.now) }
        requires cell { HasCell self.now.objects.values others.cell }
        requires last { last ≡ newest self.now.tape.events others.cell }
        requires floor { others.floor ≤ last }
        requires few { last + 1 < 4294967295 }
        requires n { n < length (differing (initial_of self.now.objects.values) self.now.tape.events others.cell others.floor others.scalar last) }
        ensures nth { slice_get (differing (initial_of self.now.objects.values) self.now.tape.events others.cell others.floor others.scalar last) n ≡ Some result }
        ensures at_most { result ≤ last }
        ensures cost { (d : ℕ) → length self.now.tape.events < 2 ^ d → steps.new ≤ steps.old + (2 * d + 130) }
    {
        let Some(kept) = kept else {
            return 0;
        };
        let same = kept.history.count_below(others.scalar, last + 1, steps);
        let differing = last + 1 - same;
        if n + placeholder(others.scalar) < differing {
            return kept
                .history
                .other_at(others.scalar, differing - 1 - n, steps);
        }
        0
    }

    /// The n-th position from the floor on that has another value, from the newest down. Of few each is looked at.
    fn nth_differing<L: Ledger>(
        &self,
        kept: Option<&CellViews>,
        others: OtherPositions,
        last: u32,
        n: u32,
        steps: &mut Steps<L>,
    ) -> u32
        requires kept { MatchOption kept (IsUntouched self.now.tape.events others.cell) (λ views. CellHolds self.now.tape.events others.cell views.now) }
        requires cell { HasCell self.now.objects.values others.cell }
        requires last { last ≡ newest self.now.tape.events others.cell }
        requires floor { others.floor ≤ last }
        requires few { last + 1 < 4294967295 }
        requires n { n < length (differing (initial_of self.now.objects.values) self.now.tape.events others.cell others.floor others.scalar last) }
        ensures nth { slice_get (differing (initial_of self.now.objects.values) self.now.tape.events others.cell others.floor others.scalar last) n ≡ Some result }
        ensures at_most { result ≤ last }
        ensures cost { (d : ℕ) → length self.now.tape.events < 2 ^ d → steps.new ≤ steps.old + looks_bound d (last + 1 - others.floor) (Some others.scalar) }
    {
        let positions = last - others.floor + 1;
        if positions <= FEW {
            return self.nth_in_turn(kept, others, last, n, steps);
        }
        self.nth_searched(kept, others, last, n, steps)
    }

    /// How many positions may be read.
    fn count_reads<L: Ledger>(
        &self,
        kept: Option<&CellViews>,
        read: Read,
        steps: &mut Steps<L>,
    ) -> u32
        requires kept { MatchOption kept (IsUntouched self.now.tape.events read.cell) (λ views. CellHolds self.now.tape.events read.cell views.now) }
        requires cell { HasCell self.now.objects.values read.cell }
        requires count { length self.now.tape.events + 1 < 4294967295 }
        ensures count { result ≡ length (reads self.now.rule (initial_of self.now.objects.values) self.now.tape.events read.thread read.cell read.order read.excluded) }
        ensures at_most { result ≤ length self.now.tape.events + 1 }
        ensures cost { (d : ℕ) → length self.now.tape.events < 2 ^ d → steps.new ≤ steps.old + (floor_bound self.now.tape.events d + looks_bound d (length (options self.now.rule (initial_of self.now.objects.values) self.now.tape.events read.thread read.cell read.order)) read.excluded) }
    {
        let cell = read.cell;
        let floor = self.floor(kept, read.thread, cell, read.order, steps);
        let newest = self.newest(kept, cell);
        match read.excluded {
            None => newest - floor + 1,
            Some(scalar) => {
                let others = OtherPositions {
                    cell,
                    floor,
                    scalar,
                };
                self.count_others(kept, others, newest, steps)
            }
        }
    }

    /// The n-th of the positions that may be read, from the newest down.
    fn nth_read<L: Ledger>(
        &self,
        kept: Option<&CellViews>,
        read: Read,
        n: u32,
        steps: &mut Steps<L>,
    ) -> u32
        requires kept { MatchOption kept (IsUntouched self.now.tape.events read.cell) (λ views. CellHolds self.now.tape.events read.cell views.now) }
        requires cell { HasCell self.now.objects.values read.cell }
        requires count { length self.now.tape.events + 1 < 4294967295 }
        requires n { n < length (reads self.now.rule (initial_of self.now.objects.values) self.now.tape.events read.thread read.cell read.order read.excluded) }
        ensures nth { slice_get (reads self.now.rule (initial_of self.now.objects.values) self.now.tape.events read.thread read.cell read.order read.excluded) n ≡ Some result }
        ensures at_most { result ≤ newest self.now.tape.events read.cell }
        ensures cost { (d : ℕ) → length self.now.tape.events < 2 ^ d → steps.new ≤ steps.old + (floor_bound self.now.tape.events d + looks_bound d (length (options self.now.rule (initial_of self.now.objects.values) self.now.tape.events read.thread read.cell read.order)) read.excluded) }
    {
        let cell = read.cell;
        let newest = self.newest(kept, cell);
        match read.excluded {
            None => newest - n,
            Some(scalar) => {
                let floor = self.floor(kept, read.thread, cell, read.order, steps);
                let others = OtherPositions {
                    cell,
                    floor,
                    scalar,
                };
                self.nth_differing(kept, others, newest, n, steps)
            }
        }
    }

    /// The position as an option.
    fn chosen<L: Ledger>(
        &self,
        kept: Option<&CellViews>,
        cell: CellId,
        success: bool,
        position: u32,
        steps: &mut Steps<L>,
    ) -> Chosen
        requires kept { MatchOption kept (IsUntouched self.now.tape.events cell) (λ views. CellHolds self.now.tape.events cell views.now) }
        requires cell { HasCell self.now.objects.values cell }
        requires position { position ≤ newest self.now.tape.events cell }
        ensures chosen { result ≡ chosen_at (initial_of self.now.objects.values) self.now.tape.events cell success position }
        ensures cost { steps.new ≤ steps.old + 1 }
    {
        Chosen {
            position,
            value: self.value(kept, cell, position, steps),
            success,
        }
    }

    /// The n-th of the positions that may be read, as an option that changes nothing.
    fn read_chosen<L: Ledger>(
        &self,
        kept: Option<&CellViews>,
        read: Read,
        n: u32,
        steps: &mut Steps<L>,
    ) -> Chosen
        requires kept { MatchOption kept (IsUntouched self.now.tape.events read.cell) (λ views. CellHolds self.now.tape.events read.cell views.now) }
        requires cell { HasCell self.now.objects.values read.cell }
        requires count { length self.now.tape.events + 1 < 4294967295 }
        requires n { n < length (reads self.now.rule (initial_of self.now.objects.values) self.now.tape.events read.thread read.cell read.order read.excluded) }
        ensures chosen { slice_get (map (chosen_at (initial_of self.now.objects.values) self.now.tape.events read.cell false) (reads self.now.rule (initial_of self.now.objects.values) self.now.tape.events read.thread read.cell read.order read.excluded)) n ≡ Some result }
        ensures cost { (d : ℕ) → length self.now.tape.events < 2 ^ d → steps.new ≤ steps.old + (floor_bound self.now.tape.events d + looks_bound d (length (options self.now.rule (initial_of self.now.objects.values) self.now.tape.events read.thread read.cell read.order)) read.excluded + 1) }
    {
        let position = self.nth_read(kept, read, n, steps);
        self.chosen(kept, read.cell, false, position, steps)
    }

    /// The newest position, as an option that updates the cell.
    fn update_chosen<L: Ledger>(
        &self,
        kept: Option<&CellViews>,
        cell: CellId,
        steps: &mut Steps<L>,
    ) -> Chosen
        requires kept { MatchOption kept (IsUntouched self.now.tape.events cell) (λ views. CellHolds self.now.tape.events cell views.now) }
        requires cell { HasCell self.now.objects.values cell }
        ensures chosen { result ≡ chosen_at (initial_of self.now.objects.values) self.now.tape.events cell true (newest self.now.tape.events cell) }
        ensures cost { steps.new ≤ steps.old + 1 }
    {
        let newest = self.newest(kept, cell);
        self.chosen(kept, cell, true, newest, steps)
    }

    /// Whether a comparison may succeed: the newest position holds the expected scalar.
    fn may_succeed<L: Ledger>(
        &self,
        kept: Option<&CellViews>,
        cell: CellId,
        expected: Scalar,
        steps: &mut Steps<L>,
    ) -> bool
        requires kept { MatchOption kept (IsUntouched self.now.tape.events cell) (λ views. CellHolds self.now.tape.events cell views.now) }
        requires cell { HasCell self.now.objects.values cell }
        ensures may { result ≡ holds (initial_of self.now.objects.values) self.now.tape.events cell expected (newest self.now.tape.events cell) }
        ensures cost { steps.new ≤ steps.old + 1 }
    {
        let newest = self.newest(kept, cell);
        self.holds(kept, cell, expected, newest, steps)
    }
}

/// How many positions of a history, 1 or 0, are 0 and have another value than the scalar: NULL stands there in the place of the
/// initial scalar.
fn placeholder(scalar: Scalar) -> u32
    ensures is { result ≡ (if same_scalar Null scalar then 0 else 1) }
    ensures at_most { result ≤ 1 }
{
    if is_same_scalar(Scalar::Null, scalar) {
        0
    } else {
        1
    }
}

/// What a comparison may not read: the expected scalar, where it is strong.
fn excluded(weak: bool, expected: Scalar) -> Option<Scalar>
    ensures { result ≡ excluded_by weak expected }
{
    if weak { None } else { Some(expected) }
}

impl Memory for ViewMemory {
    ghost log = { λ memory. memory.tape.events };

    ghost objects = { λ memory. memory.objects.values };

    ghost rule = { λ memory. memory.rule };

    ghost room = { λ memory. memory.room };

    fn add_object(&mut self, initial: Value) -> Result<(), AllocError> {
        self.objects.push(initial)
    }

    fn reserve(
        &mut self,
        thread: u32,
        cell: Option<CellId>,
        events: u32,
    ) -> Result<(), AllocError> {
        self.room = Room {
            thread,
            cell: None,
            events: 0,
        };
        self.tape.reserve_many(events as usize)?;
        self.rows.reserve(self.alloc, events)?;
        kept_cells::reserve_clocks(&mut self.clocks, events)?;
        reserve_threads(&mut self.made, events as usize)?;
        kept_cells::reserve_step(
            &mut self.places,
            &mut self.kept,
            self.alloc,
            thread,
            cell,
            events,
        )?;
        self.room = Room {
            thread,
            cell,
            events,
        };
        Ok(())
    }

    fn options<L: Ledger>(
        &self,
        thread: u32,
        cell: CellId,
        wanted: &Wanted,
        steps: &mut Steps<L>,
    ) -> u32
        requires thread { is_thread self.now.tape.events thread ≡ true }
        requires cell { HasCell self.now.objects.values cell }
        requires count { length self.now.tape.events + 1 < 4294967295 }
        ensures count { result ≡ length (choices self.now.rule (initial_of self.now.objects.values) self.now.tape.events thread cell wanted.now) }
        ensures some { 1 ≤ result }
        ensures cost { (d : ℕ) → length self.now.tape.events < 2 ^ d → steps.new ≤ steps.old + (search_bound self.now.tape.events d + failure_options self.now.rule (initial_of self.now.objects.values) self.now.tape.events thread cell wanted.now) }
        ensures cost_of_many { (d : ℕ) → length self.now.tape.events < 2 ^ d → steps.new ≤ steps.old + (search_bound self.now.tape.events d + 128) }
    {
        match *wanted {
            Wanted::Load { order } => {
                let read = Read {
                    thread,
                    cell,
                    order,
                    excluded: None,
                };
                self.count_reads(self.views_of(cell), read, steps)
            }
            Wanted::Swap => 1,
            Wanted::Compare {
                failure,
                expected,
                weak,
                ..
            } => {
                let read = Read {
                    thread,
                    cell,
                    order: failure,
                    excluded: excluded(weak, expected),
                };
                let kept = self.views_of(cell);
                let failures = self.count_reads(kept, read, steps);
                if self.may_succeed(kept, cell, expected, steps) {
                    return failures + 1;
                }
                failures
            }
        }
    }

    fn choose<L: Ledger>(
        &self,
        thread: u32,
        cell: CellId,
        wanted: &Wanted,
        n: u32,
        steps: &mut Steps<L>,
    ) -> Chosen
        requires thread { is_thread self.now.tape.events thread ≡ true }
        requires cell { HasCell self.now.objects.values cell }
        requires count { length self.now.tape.events + 1 < 4294967295 }
        requires n { n < length (choices self.now.rule (initial_of self.now.objects.values) self.now.tape.events thread cell wanted.now) }
        ensures chosen { slice_get (choices self.now.rule (initial_of self.now.objects.values) self.now.tape.events thread cell wanted.now) n ≡ Some result }
        ensures cost { (d : ℕ) → length self.now.tape.events < 2 ^ d → steps.new ≤ steps.old + (search_bound self.now.tape.events d + failure_options self.now.rule (initial_of self.now.objects.values) self.now.tape.events thread cell wanted.now) }
        ensures cost_of_many { (d : ℕ) → length self.now.tape.events < 2 ^ d → steps.new ≤ steps.old + (search_bound self.now.tape.events d + 128) }
    {
        let kept = self.views_of(cell);
        match *wanted {
            Wanted::Load { order } => {
                let read = Read {
                    thread,
                    cell,
                    order,
                    excluded: None,
                };
                self.read_chosen(kept, read, n, steps)
            }
            Wanted::Swap => self.update_chosen(kept, cell, steps),
            Wanted::Compare {
                failure,
                expected,
                weak,
                ..
            } => {
                let read = Read {
                    thread,
                    cell,
                    order: failure,
                    excluded: excluded(weak, expected),
                };
                if !self.may_succeed(kept, cell, expected, steps) {
                    return self.read_chosen(kept, read, n, steps);
                }
                if n == 0 {
                    return self.update_chosen(kept, cell, steps);
                }
                self.read_chosen(kept, read, n - 1, steps)
            }
        }
    }

    fn commit<L: Ledger>(&mut self, event: Event, steps: &mut Steps<L>) -> Option<Race>
        requires fits { EventFits self.old.rule self.old.objects.values self.old.tape.events event }
        requires room { HasRoom self.old.room event }
        requires count { length self.old.tape.events + 1 < 4294967295 }
        ensures race { MatchOption result (race self.old.rule self.old.tape.events event ≡ None) (λ found. race self.old.rule self.old.tape.events event ≡ Some found.earlier) }
        ensures added { IsNone result → self.new.tape.events ≡ event ∷ self.old.tape.events }
        ensures room { IsNone result → self.new.room ≡ one_less self.old.room }
        ensures raced { IsSome result → self.new.tape.events ≡ self.old.tape.events }
        ensures raced_room { IsSome result → self.new.room ≡ self.old.room }
        ensures same_objects { self.new.objects.values ≡ self.old.objects.values }
        ensures same_rule { self.new.rule ≡ self.old.rule }
        ensures cost { (d : ℕ) → length self.old.tape.events < 2 ^ d → steps.new ≤ steps.old + search_bound self.old.tape.events d }
    {
        let place = self.place_of(&event);
        let kept = self.views_at(place);
        let taken = self.taken(&event, kept);
        let mut clock = self.known_before(&event, &taken);
        match self.race_of(&event, kept, &clock, steps) {
            Some(earlier) => Some(Race { earlier }),
            None => {
                clock.set(event.thread as usize, self.next);
                self.add(event, place, &clock, &taken);
                None
            }
        }
    }

    ghost sound = { λ memory. memory.log_holds.sound };
}
