// A run of any memory, whose events are given one by one.
ghost use Rattle.std.specs.Prelude.{◌≡◌, ◌+◌, ◌&&◌, ◌==◌, ◌<◌, ◌≤◌, ◌↔◌, ℕ, [], ◌∷◌, true, All, reverse, length, IsTrue, IfOk, OnOk, OnErr, IfSome};
ghost use Rattle.mem_axioms.specs.Events.{is_wake};
ghost use Rattle.mem_axioms.specs.Logs.{newest};
ghost use Rattle.mem_axioms.specs.Objects.{HasCell};
ghost use Rattle.mem_axioms.specs.Rooms.{HasRoom};
ghost use Rattle.mem_axioms.specs.EventFits.{EventFits, is_thread, wakes_at};

use mem_axioms::event_facts::{makes, wake};
use mem_axioms::{Chosen, Event, Kind, Memory, Mode, Race, Wanted};
use mu_base::{Order, Steps};
use mu_values::{CellId, Scalar, Value};
use std::alloc::{AllocError, Global};
use std::process::Abort;
use std::sync::ledger::Ledger;

/// A memory with the events that it was given. Its objects have two cells each.
#[derive(Drop)]
pub struct Run<M: Memory> {
    memory: M,
    events: Vec<Event>,
    objects: u32,
    ghost same: { M.log memory ≡ reverse events.items },
    ghost count: { length (M.objects memory) ≡ objects },
    ghost pairs: { All (λ cells. length cells ≡ 2) (M.objects memory) },
}

/// Whether the thread is 0 or was made.
fn has_thread(events: &[Event], thread: u32) -> bool
    ensures { result ≡ is_thread (reverse events.now) thread }
{
    let mut found = thread == 0;
    for event in events {
        if makes(event, thread) {
            found = true;
        }
    }
    found
}

/// Whether event `i`, which is `event`, is a wake and has that number.
fn is_wake_numbered(i: usize, event: &Event, n: u32) -> bool
    ensures { result ≡ ((i == n) && is_wake event.now) }
{
    i == n as usize && wake(event)
}

/// Whether the event with that number is a wake.
fn has_wake(events: &[Event], n: u32) -> bool
    ensures { result ≡ wakes_at (reverse events.now) n }
{
    let mut found = false;
    for i in 0..events.len() {
        if is_wake_numbered(i, &events[i], n) {
            found = true;
        }
    }
    found
}

/// The cell that room is asked for.
fn room_for(event: &Event) -> Option<CellId>
    ensures { HasRoom (record { thread = event.now.thread; cell = result; events = 1 }) event.now }
{
    match event.kind {
        Kind::Access { cell, .. } => Some(cell),
        _ => None,
    }
}

/// An object of two cells.
fn pair(alloc: Global, cells: [Scalar; 2]) -> Result<Value, AllocError>
    ensures { IfOk result (λ value. length value.members ≡ 2) }
{
    let mut value = Value::new(alloc);
    value.push(cells[0])?;
    value.push(cells[1])?;
    Ok(value)
}

/// Adds an object of two cells to objects of two cells each.
fn add_pair<M: Memory>(memory: &mut M, alloc: Global, cells: [Scalar; 2]) -> Result<(), AllocError>
    requires { All (λ cells. length cells ≡ 2) (M.objects memory.old) }
    ensures count { OnOk result (length (M.objects memory.new) ≡ length (M.objects memory.old) + 1) }
    ensures refused { OnErr result (M.objects memory.new ≡ M.objects memory.old) }
    ensures pairs { All (λ cells. length cells ≡ 2) (M.objects memory.new) }
    ensures log { M.log memory.new ≡ M.log memory.old }
    ensures rule { M.rule memory.new ≡ M.rule memory.old }
{
    memory.add_object(pair(alloc, cells)?)
}

impl<M: Memory + Drop> Run<M> {
    /// A run of a memory without events and objects. It gets an object for each two initial scalars.
    pub fn new(memory: M, alloc: Global, cells: &[[Scalar; 2]]) -> Result<Run<M>, AllocError>
        requires log { M.log memory ≡ [] }
        requires objects { M.objects memory ≡ [] }
    {
        let mut run = Run {
            memory,
            events: Vec::new(alloc),
            objects: 0,
        };
        for pair in cells {
            run.add_object(alloc, *pair)?;
        }
        Ok(run)
    }

    /// Adds an object of two cells.
    fn add_object(&mut self, alloc: Global, cells: [Scalar; 2]) -> Result<(), AllocError> {
        let Some(objects) = self.objects.checked_add(1) else {
            return Err(AllocError);
        };
        add_pair(&mut self.memory, alloc, cells)?;
        self.objects = objects;
        Ok(())
    }

    /// Whether the cell is there.
    fn has_cell(&self, cell: CellId) -> bool
        ensures { IsTrue result → HasCell (M.objects self.now.memory) cell }
    {
        cell.object < self.objects && cell.at < 2
    }

    /// Whether the thread was made, the cell is there, and the run is short.
    fn may_access(&self, thread: u32, cell: CellId) -> bool
        ensures thread { IsTrue result → is_thread (M.log self.now.memory) thread ≡ true }
        ensures cell { IsTrue result → HasCell (M.objects self.now.memory) cell }
        ensures count { IsTrue result → length (M.log self.now.memory) < 1000 }
    {
        has_thread(&self.events, thread) && self.has_cell(cell) && self.events.len() < 1000
    }

    /// The newest position of a cell.
    fn newest_position<L: Ledger>(&self, thread: u32, cell: CellId, steps: &mut Steps<L>) -> u32
        requires thread { is_thread (M.log self.now.memory) thread ≡ true }
        requires cell { HasCell (M.objects self.now.memory) cell }
        requires count { length (M.log self.now.memory) < 1000 }
        ensures { result ≡ newest (M.log self.now.memory) cell }
    {
        self.memory
            .choose(thread, cell, &Wanted::Swap, 0, steps)
            .position
    }

    /// Whether a write or update of that position fits.
    fn is_next<L: Ledger>(
        &self,
        thread: u32,
        cell: CellId,
        position: u32,
        steps: &mut Steps<L>,
    ) -> bool
        ensures thread { IsTrue result → is_thread (M.log self.now.memory) thread ≡ true }
        ensures cell { IsTrue result → HasCell (M.objects self.now.memory) cell }
        ensures position { IsTrue result → position ≡ newest (M.log self.now.memory) cell + 1 }
    {
        if !self.may_access(thread, cell) {
            return false;
        }
        let newest = self.newest_position(thread, cell, steps);
        newest < 1000 && position == newest + 1
    }

    /// Whether an event that is no read fits. None of a read.
    fn fits<L: Ledger>(&self, event: &Event, steps: &mut Steps<L>) -> bool
        ensures { IsTrue result → EventFits (M.rule self.now.memory) (M.objects self.now.memory) (M.log self.now.memory) event.now }
    {
        match event.kind {
            Kind::Access {
                mode: Mode::Write | Mode::Update,
                cell,
                position,
                ..
            } => self.is_next(event.thread, cell, position, steps),
            Kind::Access { .. } => false,
            Kind::NewThread { child } => {
                has_thread(&self.events, event.thread)
                    && child < 64
                    && !has_thread(&self.events, child)
            }
            Kind::Wake { cell, .. } => {
                has_thread(&self.events, event.thread) && self.has_cell(cell)
            }
            Kind::Woken { wake } => {
                has_thread(&self.events, event.thread) && has_wake(&self.events, wake)
            }
            _ => has_thread(&self.events, event.thread),
        }
    }

    /// The read of the position, where it is an option.
    fn offered<L: Ledger>(
        &self,
        thread: u32,
        cell: CellId,
        order: Order,
        position: u32,
        steps: &mut Steps<L>,
    ) -> Option<Event>
        ensures { IfSome result (λ read. EventFits (M.rule self.now.memory) (M.objects self.now.memory) (M.log self.now.memory) read) }
    {
        if !self.may_access(thread, cell) {
            return None;
        }
        let wanted = Wanted::Load { order };
        for n in 0..self.memory.options(thread, cell, &wanted, steps) {
            let chosen = self.memory.choose(thread, cell, &wanted, n, steps);
            if chosen.position == position && !chosen.success {
                let kind = Kind::Access {
                    mode: Mode::Read,
                    cell,
                    order,
                    position: chosen.position,
                    value: chosen.value,
                };
                return Some(Event { thread, kind });
            }
        }
        None
    }

    /// Commits an event that fits.
    fn put<L: Ledger>(
        &mut self,
        event: Event,
        steps: &mut Steps<L>,
    ) -> Result<Option<Race>, AllocError>
        requires fits { EventFits (M.rule self.old.memory) (M.objects self.old.memory) (M.log self.old.memory) event }
        requires count { length self.old.events.items < 1000 }
    {
        self.events.reserve(1)?;
        self.memory.reserve(event.thread, room_for(&event), 1)?;
        let race = self.memory.commit(event, steps);
        if race.is_none() {
            self.events.push_reserved(event);
        }
        Ok(race)
    }

    /// Commits the event, which has to fit, and gives its race.
    pub fn commit<L: Ledger>(
        &mut self,
        rt: &impl Abort,
        event: Event,
        steps: &mut Steps<L>,
    ) -> Result<Option<Race>, AllocError> {
        assert!(rt; self.events.len() < 1000);
        if let Kind::Access {
            mode: Mode::Read,
            cell,
            order,
            position,
            ..
        } = event.kind
        {
            let offered = self.offered(event.thread, cell, order, position, steps);
            let read = offered.expect(rt, "the position is no option");
            assert!(rt; read == event);
            return self.put(read, steps);
        }
        assert!(rt; self.fits(&event, steps));
        self.put(event, steps)
    }

    /// Option `n` of what is wanted, where it is there.
    pub fn choice<L: Ledger>(
        &self,
        thread: u32,
        cell: CellId,
        wanted: &Wanted,
        n: u32,
        steps: &mut Steps<L>,
    ) -> Option<Chosen> {
        if self.may_access(thread, cell) && n < self.memory.options(thread, cell, wanted, steps) {
            Some(self.memory.choose(thread, cell, wanted, n, steps))
        } else {
            None
        }
    }
}
