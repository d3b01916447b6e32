// What is known of the events so far.
ghost use Rattle.std.specs.Prelude.{◌≡◌, ℕ, ◌+◌, ◌<◌, ◌≤◌, ◌==◌, ◌&&◌, true, false, if◌then◌else◌, None, Some, List, [], ◌∷◌, length, nat_lt, slice_index, slice_get, OnOk, OnErr, MatchOption, IfSome, IsSomeAnd};
ghost use Rattle.mu_values.specs.declared.cells.CellId.{CellId};
ghost use Rattle.mem_axioms.specs.Events.{accesses, is_seq_cst_fence};
ghost use Rattle.mem_axioms.specs.Logs.{newest};
ghost use Rattle.mem_axioms.specs.Form.{is_only_value, has_form_alone, fits_form_alone};
ghost use Rattle.mem_axioms.specs.Floor.{floor};
ghost use Rattle.mem_axioms.specs.Races.{race};
ghost use Rattle.mem_axioms.specs.declared.types.Event.{Event};
ghost use Rattle.clock_laws.specs.Clocks.{views, knew, knows, pends};
ghost use Rattle.clock_laws.specs.ViewFloor.{view_limit};
ghost use Rattle.clocks.specs.Knowing.{known_by};
ghost use Rattle.clocks.specs.Tables.{table_at};
ghost use Rattle.view_parts.specs.Holding.{values_of, RowsHold, CellHolds, ClocksHold, CellsHold, IsUntouched};
ghost use Rattle.view_parts.specs.RowsAdded.{RowsRoom};
ghost use Rattle.view_parts.specs.CellRooms.{CellRoomAt};
ghost use Rattle.view_parts.specs.Answers.{IsKnown};
ghost use Rattle.verdicts.specs.Laws.{IsFaultless};
ghost use Rattle.mem_axioms.specs.Threads.{HasFewThreads};
ghost use Rattle.log_judge.specs.CellKeys.{number_in};
ghost use Rattle.log_judge.specs.Kept.{initial_read, InitialsHold, ThreadsHold, FencesHold};

use crate::ahead::look_ahead;
use crate::cell_map::{CellMap, key_of};
use clocks::{Clock, ClockList, EventClocks};
use mem_axioms::event_facts::{cell_of, is_same_scalar, seq_cst, seq_cst_fence};
use mem_axioms::{Event, Kind, Log, Mode, Rule};
use mu_base::{Order, Steps};
use mu_values::{CellId, Scalar};
use std::alloc::{AllocError, Global};
use std::collections::BTreeMap;
use std::marker::Brand;
use std::sync::ledger::{Blank, Ledger};
use verdicts::{Pair, Past};
use view_parts::floors::{fences_before, found_floor, greatest_of_kinds, last_fence};
use view_parts::gains::{gain, given_by, taken_from};
use view_parts::racing::first_racing;
use view_parts::{CellPlaces, CellViews, NextEvent, Rows, kept_cells};
use write_history::Tape;

/// What is known of the events of a log without faults: clocks, and of each cell that they access its values and accesses.
#[derive(Drop)]
pub struct LogViews {
    alloc: Global,
    /// The rule of release sequences.
    pub rule: Rule,
    /// All events. No call reads them.
    pub tape: Tape,
    /// How many events there were.
    pub next: u32,
    /// The threads from 0 up to the greatest that had an event.
    pub threads: Vec<u32>,
    /// The clocks of threads, stacks, wakes and fences.
    pub rows: Rows,
    /// What is known at each SEQ_CST fence, by its number.
    pub fences: EventClocks,
    // The clocks of positions and sequences, which the cells name by numbers.
    clocks: ClockList,
    places: CellMap,
    // What is kept of each cell that was accessed, by its place.
    kept: Vec<CellViews>,
    // What was read at position 0 of a cell, by its key.
    initials: BTreeMap<u64, Scalar>,
    ghost counted: { next ≡ length tape.events },
    ghost placed: { length places.owners.items ≡ length kept.items },
    ghost threads_hold: { ThreadsHold threads.items tape.events },
    ghost rows_hold: { RowsHold rule tape.events rows },
    ghost fences_hold: { FencesHold rule tape.events fences },
    ghost cells_hold: { CellsHold rule tape.events clocks (number_in places.places) kept.items },
    ghost initials_hold: { InitialsHold tape.events initials },
}

/// Adds threads to the list, up to that one.
fn list_threads(threads: &mut Vec<u32>, thread: u32) -> Result<(), AllocError>
    requires { thread < 64 }
    ensures holds { (log : List Event) → ThreadsHold threads.old.items log → ThreadsHold threads.new.items log }
    ensures there { OnOk result (thread < length threads.new.items) }
{
    while threads.len() <= thread as usize {
        threads.push(threads.len() as u32)?;
    }
    Ok(())
}

/// A SEQ_CST fence keeps its clock.
fn keep_fence(fences: &mut EventClocks, event: &Event, number: u32, clock: &Clock)
    requires room { 0 < fences.old.spare }
    ensures { (a u : ℕ) → table_at fences.new a u ≡ (if is_seq_cst_fence event.now && (a == number) then slice_index clock.now u else table_at fences.old a u) }
{
    if seq_cst_fence(event) {
        fences.put(number, clock);
    }
}

/// An access of position 0 keeps the value that it has there.
fn keep_initial(initials: &mut BTreeMap<u64, Scalar>, event: &Event) -> Result<(), AllocError>
    ensures holds { OnOk result ((log : List Event) → InitialsHold log initials.old → InitialsHold (event.now ∷ log) initials.new) }
    ensures same { OnErr result ((log : List Event) → InitialsHold log initials.old → InitialsHold log initials.new) }
{
    if let Kind::Access {
        cell,
        position,
        value,
        ..
    } = event.kind
    {
        if position == 0 {
            initials.insert(key_of(cell), value)?;
        }
    }
    Ok(())
}

impl LogViews {
    /// Nothing is known of any event yet.
    pub fn new(alloc: Global, rule: Rule) -> LogViews
        ensures log { result.tape.events ≡ [] }
        ensures rule { result.rule ≡ rule }
    {
        LogViews {
            alloc,
            rule,
            tape: Tape::new(alloc),
            next: 0,
            threads: Vec::new(alloc),
            rows: Rows::new(alloc),
            fences: EventClocks::new(alloc),
            clocks: ClockList::new(alloc),
            places: CellMap::new(alloc),
            kept: Vec::new(alloc),
            initials: BTreeMap::new(alloc),
        }
    }

    /// What is kept of a cell, if it was accessed.
    fn views_of(&self, cell: CellId) -> Option<&CellViews>
        ensures views { MatchOption result (IsUntouched self.now.tape.events cell) (λ kept. CellHolds self.now.tape.events cell kept.now) }
        ensures clocks { IfSome result (λ kept. ClocksHold self.now.rule self.now.tape.events self.now.clocks cell kept.now) }
    {
        match self.places.find(cell) {
            Some(place) => Some(&self.kept[place]),
            None => None,
        }
    }

    /// What an event leaves for a later acquire fence of its thread.
    fn taken(&self, event: &Event) -> Option<Clock>
        ensures { (u : ℕ) → known_by result u ≡ pends (views self.now.rule self.now.tape.events) event.now u }
    {
        let cell = cell_of(event)?;
        let kept = self.views_of(cell)?;
        taken_from(&self.clocks, kept, event)
    }

    /// What happens before an event, with what it gains.
    fn known_before(&self, event: &Event, taken: &Option<Clock>) -> Clock
        requires { (u : ℕ) → known_by taken.now u ≡ pends (views self.now.rule self.now.tape.events) event.now u }
        ensures { (u : ℕ) → slice_index result u ≡ knew (views self.now.rule self.now.tape.events) event.now u }
    {
        let mut clock = *self.rows.threads.of(event.thread);
        gain(&mut clock, &self.rows, event, taken);
        clock
    }

    /// What happens before the event that comes next.
    pub fn knew(&self, event: &Event) -> Clock
        ensures { (u : ℕ) → slice_index result u ≡ knew (views self.now.rule self.now.tape.events) event.now u }
    {
        let taken = self.taken(event);
        self.known_before(event, &taken)
    }

    /// The newest position of a cell.
    fn newest(&self, cell: CellId) -> u32
        ensures { result ≡ newest self.now.tape.events cell }
    {
        match self.views_of(cell) {
            Some(kept) => kept.history.newest(),
            None => 0,
        }
    }

    /// The value at a later position that exists, in a cell that was accessed.
    fn written<L: Ledger>(&self, cell: CellId, position: u32, blank: Blank) -> Option<Scalar>
        requires name { blank.name ≡ L.name }
        requires parts { blank.parts ≡ L.parts }
        requires one { L.parts ≡ 1 }
        requires later { 0 < position }
        requires there { position ≤ newest self.now.tape.events cell }
        ensures { IsSomeAnd result (λ value. slice_get (values_of self.now.tape.events cell) position ≡ Some value) }
    {
        let mut steps = Steps::<L>::new(blank);
        match self.views_of(cell) {
            Some(kept) => Some(kept.history.value(position, &mut steps)),
            None => None,
        }
    }

    /// The value that earlier accesses have at position 0, if there are any.
    fn initial(&self, cell: CellId) -> Option<Scalar>
        ensures { result ≡ initial_read self.now.tape.events cell }
    {
        match self.initials.get(&key_of(cell)) {
            Some(value) => Some(*value),
            None => None,
        }
    }

    /// The value that earlier accesses have at a position, if there are any.
    fn value_at(&self, cell: CellId, position: u32) -> Option<Scalar>
        requires { position ≤ newest self.now.tape.events cell }
        ensures initial { position ≡ 0 → result ≡ initial_read self.now.tape.events cell }
        ensures later { 0 < position → IsSomeAnd result (λ value. slice_get (values_of self.now.tape.events cell) position ≡ Some value) }
    {
        if position == 0 {
            return self.initial(cell);
        }
        self.written::<Brand>(cell, position, Blank::new(1))
    }

    /// Whether no earlier access has another value at the position.
    fn has_only_value(&self, cell: CellId, position: u32, value: Scalar) -> bool
        requires form { has_form_alone self.now.tape.events ≡ true }
        requires there { position ≤ newest self.now.tape.events cell }
        ensures { result ≡ is_only_value self.now.tape.events cell position value }
    {
        match self.value_at(cell, position) {
            Some(known) => is_same_scalar(known, value),
            None => true,
        }
    }

    /// The number of a SEQ_CST load, or of the last SEQ_CST fence that the thread knows, or 0.
    fn limit<L: Ledger>(
        &self,
        thread: u32,
        known: &Clock,
        order: Order,
        steps: &mut Steps<L>,
    ) -> u32
        requires { IsKnown self.now.rule self.now.tape.events thread known.now }
        ensures { result ≡ view_limit (views self.now.rule self.now.tape.events) self.now.tape.events thread order }
    {
        if seq_cst(order) {
            return self.next;
        }
        last_fence(&self.rows, &self.threads, known, steps)
    }

    /// The floor of a load of the cell.
    fn floor<L: Ledger>(&self, thread: u32, cell: CellId, order: Order, steps: &mut Steps<L>) -> u32
        requires { IsFaultless self.now.rule self.now.tape.events }
        ensures { result ≡ floor self.now.rule self.now.tape.events thread cell order }
    {
        let Some(kept) = self.views_of(cell) else {
            return 0;
        };
        let known = self.rows.threads.of(thread);
        let limit = self.limit(thread, known, order, steps);
        // Without a fence neither SEQ_CST accesses nor fences raise the floor.
        if limit == 0 && !seq_cst(order) {
            return found_floor(kept, &self.threads, known, steps);
        }
        let below = Clock::below(limit);
        let before = fences_before(&self.rows, order, limit);
        greatest_of_kinds(kept, &self.threads, known, &below, &before, steps)
    }

    /// Whether a position is below the floor of a load. No floor is above the newest position, so most loads need no look-up.
    fn is_under<L: Ledger>(
        &self,
        thread: u32,
        cell: CellId,
        order: Order,
        position: u32,
        blank: Blank,
    ) -> bool
        requires name { blank.name ≡ L.name }
        requires parts { blank.parts ≡ L.parts }
        requires one { L.parts ≡ 1 }
        requires faultless { IsFaultless self.now.rule self.now.tape.events }
        ensures { result ≡ nat_lt position (floor self.now.rule self.now.tape.events thread cell order) }
    {
        if self.newest(cell) <= position {
            return false;
        }
        let mut steps = Steps::<L>::new(blank);
        position < self.floor(thread, cell, order, &mut steps)
    }

    /// The least earlier event that races with an access of a cell.
    fn race_in<L: Ledger>(
        &self,
        cell: CellId,
        kept: &CellViews,
        event: &Event,
        blank: Blank,
    ) -> Option<u32>
        requires name { blank.name ≡ L.name }
        requires parts { blank.parts ≡ L.parts }
        requires one { L.parts ≡ 1 }
        requires faultless { IsFaultless self.now.rule self.now.tape.events }
        requires fits { fits_form_alone self.now.tape.events event.now ≡ true }
        requires access { accesses cell event.now ≡ true }
        requires holds { CellHolds self.now.tape.events cell kept.now }
        ensures { result ≡ race self.now.rule self.now.tape.events event.now }
    {
        let known = self.knew(event);
        let mut steps = Steps::<L>::new(blank);
        match first_racing(kept, &self.threads, event, &known, &mut steps) {
            Some(first) => Some(first - 1),
            None => None,
        }
    }

    /// Makes room for what is kept of the event.
    fn make_room(&mut self, event: &Event) -> Result<(), AllocError>
        requires { event.now.thread < 64 }
        ensures log { self.new.tape.events ≡ self.old.tape.events }
        ensures rule { self.new.rule ≡ self.old.rule }
        ensures tape { OnOk result (0 < self.new.tape.spare) }
        ensures rows { OnOk result (RowsRoom 1 self.new.rows) }
        ensures fences { OnOk result (0 < self.new.fences.spare) }
        ensures clocks { OnOk result (2 ≤ self.new.clocks.spare) }
        ensures listed { OnOk result (event.now.thread < length self.new.threads.items) }
        ensures cell { OnOk result ((cell : CellId) → accesses cell event.now ≡ true → CellRoomAt 1 event.now.thread (number_in self.new.places.places) self.new.kept.items cell) }
    {
        self.tape.reserve_many(1)?;
        self.rows.reserve(self.alloc, 1)?;
        self.fences.reserve(1)?;
        kept_cells::reserve_clocks(&mut self.clocks, 1)?;
        list_threads(&mut self.threads, event.thread)?;
        kept_cells::reserve_step(
            &mut self.places,
            &mut self.kept,
            self.alloc,
            event.thread,
            cell_of(event),
            1,
        )?;
        Ok(())
    }

    /// Adds an event, with what it knows and what it took. Only what it reads at position 0 may need memory.
    fn put(&mut self, event: Event, clock: &Clock, taken: &Option<Clock>) -> Result<(), AllocError>
        requires faultless { IsFaultless self.old.rule (event ∷ self.old.tape.events) }
        requires few { HasFewThreads event }
        requires count { length self.old.tape.events + 1 < 4294967295 }
        requires tape { 0 < self.old.tape.spare }
        requires rows { RowsRoom 1 self.old.rows }
        requires fences { 0 < self.old.fences.spare }
        requires clocks { 2 ≤ self.old.clocks.spare }
        requires listed { event.thread < length self.old.threads.items }
        requires cell { (cell : CellId) → accesses cell event ≡ true → CellRoomAt 1 event.thread (number_in self.old.places.places) self.old.kept.items cell }
        requires knows { (u : ℕ) → slice_index clock.now u ≡ knows (views self.old.rule self.old.tape.events) (length self.old.tape.events) event u }
        requires taken { (u : ℕ) → known_by taken.now u ≡ pends (views self.old.rule self.old.tape.events) event u }
        ensures log { OnOk result (self.new.tape.events ≡ event ∷ self.old.tape.events) }
        ensures rule { self.new.rule ≡ self.old.rule }
    {
        keep_initial(&mut self.initials, &event)?;
        let given = given_by(&event, clock, self.rows.fenced.of(event.thread));
        self.rows.add(&event, self.next, clock, taken);
        keep_fence(&mut self.fences, &event, self.next, clock);
        kept_cells::add_access(
            self.rule,
            &mut self.clocks,
            &self.places,
            &mut self.kept,
            NextEvent {
                event: &event,
                number: self.next,
                given: &given,
            },
        );
        self.tape.push(event);
        self.next += 1;
        Ok(())
    }
}

impl Past for LogViews {
    ghost log = { λ past. past.tape.events };

    ghost rule = { λ past. past.rule };

    fn fits(&self, event: &Event) -> bool {
        match event.kind {
            Kind::Access {
                mode: Mode::Read,
                cell,
                position,
                value,
                ..
            } => { position <= self.newest(cell) && self.has_only_value(cell, position, value) }
            Kind::Access { cell, position, .. } => 0 < position
                && position - 1 == self.newest(cell),
            _ => true,
        }
    }

    fn is_below(&self, event: &Event) -> bool {
        match event.kind {
            Kind::Access {
                mode: Mode::Read,
                cell,
                order,
                position,
                ..
            } => { self.is_under::<Brand>(event.thread, cell, order, position, Blank::new(1)) }
            _ => false,
        }
    }

    fn race(&self, event: &Event) -> Option<u32> {
        let Some(cell) = cell_of(event) else {
            return None;
        };
        match self.views_of(cell) {
            Some(kept) => self.race_in::<Brand>(cell, kept, event, Blank::new(1)),
            None => None,
        }
    }

    fn older(&self, whole: &Log, event: &Event) -> Option<u32> {
        verdicts::older(&look_ahead(self, whole, event), whole, event, self.next)
    }

    fn pair(&self, whole: &Log, event: &Event) -> Option<Pair> {
        verdicts::pair(&look_ahead(self, whole, event), whole, event, self.next)
    }

    fn add(&mut self, event: Event) -> Result<(), AllocError> {
        self.make_room(&event)?;
        let taken = self.taken(&event);
        let mut clock = self.known_before(&event, &taken);
        clock.set(event.thread as usize, self.next);
        self.put(event, &clock, &taken)
    }
}
