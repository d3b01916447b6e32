// The memory that judges whole logs.
ghost use Rattle.std.specs.Prelude.{◌≡◌, ◌+◌, ◌<◌, ◌≤◌, ◌&&◌, true, false, None, Some, List, [], ◌∷◌, ◌++◌, map, reverse, replicate, length, slice_get, vec_len, vec_capacity, IfOk, OnOk, OnErr};
ghost use Rattle.mem_axioms.specs.Logs.{newest};
ghost use Rattle.mem_axioms.specs.Choices.{is_option, chosen_at, holds};
ghost use Rattle.mem_axioms.specs.Objects.{initial_of, HasCell};
ghost use Rattle.mem_axioms.specs.Reads.{is_kept, reads, excluded_by};
ghost use Rattle.mem_axioms.specs.Sound.{IsSound};
ghost use Rattle.mem_axioms.specs.Races.{race};
ghost use Rattle.mem_axioms.specs.EventFits.{EventFits};
ghost use Rattle.mem_axioms.specs.Rooms.{one_less};
ghost use Rattle.mem_axioms.specs.Flags.{AreRowsOf};
ghost use Rattle.mem_axioms.specs.Scalars.{scalars_of};
ghost use Rattle.mem_axioms.specs.Blanks.{AreBlanks};
ghost use Rattle.mem_axioms.specs.Known.{HasCells};

use crate::cell_values::{newest_position, value_at_position};
use crate::event_facts::is_same_scalar;
use crate::memory::Memory;
use crate::racing::least_race;
use crate::read_test::may_come_next;
use crate::rows::{Row, fill_row};
use crate::types::{Chosen, Event, Kind, Mode, Race, Room, Rule, Wanted};
use mu_base::{Order, Steps};
use mu_values::{CellId, Scalar, Value};
use std::alloc::{AllocError, Global};
use std::sync::ledger::Ledger;

/// A memory that keeps the log of its run and tests each read and each event against the axioms on the whole of it. It is
/// slow and plain: what an access may read, and whether it races, is the text of the definitions. Beside each event stands
/// the row of the earlier ones that happen before it.
#[derive(Drop)]
pub struct LogMemory {
    alloc: Global,
    rule: Rule,
    objects: Vec<Value>,
    // In the order of the run.
    events: Vec<Event>,
    rows: Vec<Row>,
    // Rows for the events that room was made for.
    blanks: Vec<Row>,
    room: Room,
    ghost flags: { AreRowsOf rule (reverse events.items) rows.items },
    ghost cells: { HasCells (scalars_of objects.items) (reverse events.items) },
    ghost sound: { IsSound rule (scalars_of objects.items) (reverse events.items) },
    ghost count: { length events.items < 4294967295 },
    ghost events_fit: { vec_len events + room.events ≤ vec_capacity events },
    ghost rows_fit: { vec_len rows + room.events ≤ vec_capacity rows },
    ghost blanks_fit: { AreBlanks blanks.items (length events.items) room.events },
}

/// That many rows of that many flags, which are false.
fn blank_rows(alloc: Global, count: u32, len: usize) -> Result<Vec<Row>, AllocError>
    ensures { IfOk result (λ rows. rows.items ≡ replicate count (replicate len false)) }
{
    let mut rows = Vec::new(alloc);
    for _ in 0..count {
        rows.push(Row::blank(alloc, len)?)?;
    }
    Ok(rows)
}

/// Adds an item for which there is room.
fn push_in_room<T: Drop>(items: &mut Vec<T>, item: T)
    requires { vec_len items.old < vec_capacity items.old }
    ensures items { items.new.items ≡ items.old.items ++ item ∷ [] }
    ensures len { vec_len items.new ≡ vec_len items.old + 1 }
    ensures capacity { vec_capacity items.old ≤ vec_capacity items.new }
{
    let Ok(()) = items.push(item) else {
        unreachable!()
    };
}

impl LogMemory {
    /// A memory with an empty log, no objects and no room, whose release sequences follow the rule.
    pub fn new(alloc: Global, rule: Rule) -> LogMemory
        ensures log { ⟦<LogMemory as Memory>⟧.log result ≡ [] }
        ensures objects { ⟦<LogMemory as Memory>⟧.objects result ≡ [] }
        ensures rule { ⟦<LogMemory as Memory>⟧.rule result ≡ rule }
        ensures room { ⟦<LogMemory as Memory>⟧.room result ≡ record { thread = 0; cell = None; events = 0 } }
    {
        LogMemory {
            alloc,
            rule,
            objects: Vec::new(alloc),
            events: Vec::new(alloc),
            rows: Vec::new(alloc),
            blanks: Vec::new(alloc),
            room: Room {
                thread: 0,
                cell: None,
                events: 0,
            },
        }
    }

    /// Adds an event that races with no earlier one.
    fn add(&mut self, event: Event)
        requires fits { EventFits self.old.rule (scalars_of self.old.objects.items) (reverse self.old.events.items) event }
        requires alone { race self.old.rule (reverse self.old.events.items) event ≡ None }
        requires room { 0 < self.old.room.events }
        requires count { length self.old.events.items + 1 < 4294967295 }
        ensures events { self.new.events.items ≡ self.old.events.items ++ event ∷ [] }
        ensures room { self.new.room ≡ one_less self.old.room }
        ensures objects { self.new.objects.items ≡ self.old.objects.items }
        ensures rule { self.new.rule ≡ self.old.rule }
    {
        let Some(mut row) = self.blanks.pop() else {
            unreachable!()
        };
        fill_row(self.rule, &self.events, &self.rows, &event, &mut row);
        push_in_room(&mut self.events, event);
        push_in_room(&mut self.rows, row);
        self.room.events -= 1;
    }

    /// Whether the position is an option of a load.
    fn is_load_option(&self, thread: u32, cell: CellId, order: Order, position: u32) -> bool
        requires cell { HasCell (scalars_of self.now.objects.items) cell }
        requires position { position ≤ newest (reverse self.now.events.items) cell }
        ensures { result ≡ is_option self.now.rule (initial_of (scalars_of self.now.objects.items)) (reverse self.now.events.items) thread cell order position }
    {
        let read = Event {
            thread,
            kind: Kind::Access {
                mode: Mode::Read,
                cell,
                order,
                position,
                value: value_at_position(&self.objects, &self.events, cell, position),
            },
        };
        may_come_next(self.rule, &self.events, &self.rows, &read)
    }

    /// Whether the value at the position is the scalar.
    fn holds(&self, cell: CellId, scalar: Scalar, position: u32) -> bool
        requires { HasCell (scalars_of self.now.objects.items) cell }
        ensures { result ≡ holds (initial_of (scalars_of self.now.objects.items)) (reverse self.now.events.items) cell scalar position }
    {
        is_same_scalar(
            value_at_position(&self.objects, &self.events, cell, position),
            scalar,
        )
    }

    /// Whether the position may be read: it is an option of a load, and its value is not the excluded one.
    fn may_take(
        &self,
        thread: u32,
        cell: CellId,
        order: Order,
        excluded: Option<Scalar>,
        position: u32,
    ) -> bool
        requires cell { HasCell (scalars_of self.now.objects.items) cell }
        requires position { position ≤ newest (reverse self.now.events.items) cell }
        ensures { result ≡ (is_option self.now.rule (initial_of (scalars_of self.now.objects.items)) (reverse self.now.events.items) thread cell order position && is_kept (initial_of (scalars_of self.now.objects.items)) (reverse self.now.events.items) cell excluded position) }
    {
        let kept = match excluded {
            Some(scalar) => !self.holds(cell, scalar, position),
            None => true,
        };
        kept && self.is_load_option(thread, cell, order, position)
    }

    /// How many positions may be read.
    fn count_reads(&self, thread: u32, cell: CellId, order: Order, excluded: Option<Scalar>) -> u32
        requires cell { HasCell (scalars_of self.now.objects.items) cell }
        requires count { length self.now.events.items + 1 < 4294967295 }
        ensures count { result ≡ length (reads self.now.rule (initial_of (scalars_of self.now.objects.items)) (reverse self.now.events.items) thread cell order excluded) }
        ensures at_most { result ≤ length self.now.events.items + 1 }
    {
        let mut count = 0;
        for position in 0..newest_position(&self.events, cell) + 1 {
            if self.may_take(thread, cell, order, excluded, position) {
                count += 1;
            }
        }
        count
    }

    /// The n-th of the positions that may be read, from the newest down.
    fn nth_read(
        &self,
        thread: u32,
        cell: CellId,
        order: Order,
        excluded: Option<Scalar>,
        n: u32,
    ) -> u32
        requires cell { HasCell (scalars_of self.now.objects.items) cell }
        requires count { length self.now.events.items + 1 < 4294967295 }
        requires n { n < length (reads self.now.rule (initial_of (scalars_of self.now.objects.items)) (reverse self.now.events.items) thread cell order excluded) }
        ensures { slice_get (reads self.now.rule (initial_of (scalars_of self.now.objects.items)) (reverse self.now.events.items) thread cell order excluded) n ≡ Some result }
    {
        let mut left = n;
        for position in (0..newest_position(&self.events, cell) + 1).rev() {
            if self.may_take(thread, cell, order, excluded, position) {
                if left == 0 {
                    return position;
                }
                left -= 1;
            }
        }
        unreachable!()
    }

    /// The position as an option.
    fn chosen(&self, cell: CellId, success: bool, position: u32) -> Chosen
        requires { HasCell (scalars_of self.now.objects.items) cell }
        ensures { result ≡ chosen_at (initial_of (scalars_of self.now.objects.items)) (reverse self.now.events.items) cell success position }
    {
        Chosen {
            position,
            value: value_at_position(&self.objects, &self.events, cell, position),
            success,
        }
    }

    /// The n-th of the positions that may be read, as an option that changes nothing.
    fn read_chosen(
        &self,
        thread: u32,
        cell: CellId,
        order: Order,
        excluded: Option<Scalar>,
        n: u32,
    ) -> Chosen
        requires cell { HasCell (scalars_of self.now.objects.items) cell }
        requires count { length self.now.events.items + 1 < 4294967295 }
        requires n { n < length (reads self.now.rule (initial_of (scalars_of self.now.objects.items)) (reverse self.now.events.items) thread cell order excluded) }
        ensures { slice_get (map (chosen_at (initial_of (scalars_of self.now.objects.items)) (reverse self.now.events.items) cell false) (reads self.now.rule (initial_of (scalars_of self.now.objects.items)) (reverse self.now.events.items) thread cell order excluded)) n ≡ Some result }
    {
        let position = self.nth_read(thread, cell, order, excluded, n);
        self.chosen(cell, false, position)
    }

    /// The newest position, as an option that updates the cell.
    fn update_chosen(&self, cell: CellId) -> Chosen
        requires { HasCell (scalars_of self.now.objects.items) cell }
        ensures { result ≡ chosen_at (initial_of (scalars_of self.now.objects.items)) (reverse self.now.events.items) cell true (newest (reverse self.now.events.items) cell) }
    {
        self.chosen(cell, true, newest_position(&self.events, cell))
    }

    /// Whether a comparison may succeed: the newest position holds the expected scalar.
    fn may_succeed(&self, cell: CellId, expected: Scalar) -> bool
        requires { HasCell (scalars_of self.now.objects.items) cell }
        ensures { result ≡ holds (initial_of (scalars_of self.now.objects.items)) (reverse self.now.events.items) cell expected (newest (reverse self.now.events.items) cell) }
    {
        self.holds(cell, expected, newest_position(&self.events, cell))
    }
}

/// What a comparison may not read: the expected scalar, where it is strong.
fn excluded(weak: bool, expected: Scalar) -> Option<Scalar>
    ensures { result ≡ excluded_by weak expected }
{
    if weak { None } else { Some(expected) }
}

impl Memory for LogMemory {
    ghost log = { λ memory. reverse memory.events.items };

    ghost objects = { λ memory. scalars_of memory.objects.items };

    ghost rule = { λ memory. memory.rule };

    ghost room = { λ memory. memory.room };

    fn add_object(&mut self, initial: Value) -> Result<(), AllocError> {
        self.objects.push(initial)?;
        Ok(())
    }

    fn reserve(
        &mut self,
        thread: u32,
        cell: Option<CellId>,
        events: u32,
    ) -> Result<(), AllocError> {
        let blanks = blank_rows(self.alloc, events, self.events.len() + events as usize)?;
        self.events.reserve(events as usize)?;
        self.rows.reserve(events as usize)?;
        self.blanks = blanks;
        self.room = Room {
            thread,
            cell,
            events,
        };
        Ok(())
    }

    fn options<L: Ledger>(
        &self,
        thread: u32,
        cell: CellId,
        wanted: &Wanted,
        _steps: &mut Steps<L>,
    ) -> u32 {
        match *wanted {
            Wanted::Load { order } => self.count_reads(thread, cell, order, None),
            Wanted::Swap => 1,
            Wanted::Compare {
                failure,
                expected,
                weak,
                ..
            } => {
                let failures = self.count_reads(thread, cell, failure, excluded(weak, expected));
                if self.may_succeed(cell, expected) {
                    return failures + 1;
                }
                failures
            }
        }
    }

    fn choose<L: Ledger>(
        &self,
        thread: u32,
        cell: CellId,
        wanted: &Wanted,
        n: u32,
        _steps: &mut Steps<L>,
    ) -> Chosen {
        match *wanted {
            Wanted::Load { order } => self.read_chosen(thread, cell, order, None, n),
            Wanted::Swap => self.update_chosen(cell),
            Wanted::Compare {
                failure,
                expected,
                weak,
                ..
            } => {
                if !self.may_succeed(cell, expected) {
                    return self.read_chosen(thread, cell, failure, excluded(weak, expected), n);
                }
                if n == 0 {
                    return self.update_chosen(cell);
                }
                self.read_chosen(thread, cell, failure, excluded(weak, expected), n - 1)
            }
        }
    }

    fn commit<L: Ledger>(&mut self, event: Event, _steps: &mut Steps<L>) -> Option<Race> {
        match least_race(self.rule, &self.events, &self.rows, &event) {
            Some(earlier) => Some(Race { earlier }),
            None => {
                self.add(event);
                None
            }
        }
    }

    ghost sound = { λ memory. memory.sound };
}
