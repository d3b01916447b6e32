// Waits at a cell, wakes, and the end of a wait with a limit.
ghost use Rattle.std.specs.Prelude.{◌≡◌, ◌≢◌, ◌<◌, IsSomeAnd, Some, IfOk, OnErr, find, true, false, ℕ};
ghost use Rattle.mem_axioms.specs.Objects.{HasCell};
ghost use Rattle.mem_axioms.specs.EventFits.{EventFits};
ghost use Rattle.mem_axioms.specs.Rooms.{HasRoom};
ghost use Rattle.mem_axioms.specs.Synchronizes.{makes_thread};
ghost use Rattle.mu_model.specs.Acts as acts;
ghost use Rattle.mu_model.specs.Outcomes.{Stuck};
ghost use Rattle.futex.specs.Waiting.{is_of};
ghost use Rattle.run_state.specs.Outcome.{Stays};
ghost use Rattle.run_state.specs.Acting.{answers, acting, stepping};
ghost use Rattle.run_state.specs.Remembering.{initials};
ghost use Rattle.run_state.specs.StepLaws.{GoesOn};
ghost use Rattle.memory_acts.specs.FutexLaws.{waiting_at, waits_with};

use crate::state::{State, ended};
use checked_code::Checked;
use client_hooks::Determined;
use mem_axioms::event_facts::is_same_scalar;
use mem_axioms::{Event, Memory};
use memory_acts::accessing::{commit, line_of, read};
use memory_acts::futexes::{CellWait, newest, tell};
use mu_base::Order;
use mu_model::{Note, StepEnd};
use mu_values::{CellId, Slots};
use object_acts::finding::case_of;
use run_state::flow::go_on;
use run_state::results::line;
use std::alloc::AllocError;
use std::marker::Brand;
use std::sync::ledger::Blank;

/// What a thread gets whose wait found another value, that is -1.
const ANOTHER: u128 = 4294967295;

/// What a thread gets whose wait with a limit is over, that is -3.
const OVER: u128 = 4294967293;

impl<M: Memory, C: Determined> State<M, C> {
    /// The thread's wait with a limit at this cell is over.
    #[tactic(auto, using(memory_acts::specs::FutexLaws::fewer_sound))]
    pub fn time_out(
        &mut self,
        code: &Checked,
        cell: CellId,
        values: &mut Slots,
        out: &mut Slots,
    ) -> Result<StepEnd, AllocError>
        requires left { self.old.left ≡ true }
        requires room { self.old.steps < self.old.budget }
        requires waits { IsSomeAnd (find (is_of self.old.thread) self.old.seats.waiters) (λ w. w.cell ≡ cell) }
        requires there { stepping code.now self.old ≢ Stuck }
        ensures ok { IfOk result (λ end. answers end self.new ≡ stepping code.now self.old) }
        ensures err { OnErr result (self.new ≡ self.old) }
        ensures stays { IfOk result (λ end. Stays end self.old self.new) }
    {
        let thread = self.thread;
        let lines = line(self.alloc, Note::TimedOut { thread, cell })?;
        tell(OVER, values)?;
        go_on(code, &mut self.frames, values, out)?;
        self.seats.stop(thread);
        self.steps += 1;
        Ok(StepEnd::Went(lines))
    }

    /// The thread waits at a cell where that holds the expected value; else it goes on.
    pub fn wait(
        &mut self,
        code: &Checked,
        wait: CellWait,
        values: &mut Slots,
        out: &mut Slots,
    ) -> Result<StepEnd, AllocError>
        requires left { self.old.left ≡ true }
        requires room { self.old.steps < self.old.budget }
        requires goes_on { GoesOn self.old }
        requires there { acting code.now self.old (acts.Waits wait.timed wait.expected wait.cell) ≢ Stuck }
        ensures ok { IfOk result (λ end. answers end self.new ≡ acting code.now self.old (acts.Waits wait.timed wait.expected wait.cell)) }
        ensures err { OnErr result (self.new ≡ self.old) }
        ensures stays { IfOk result (λ end. Stays end self.old self.new) }
    {
        match self.cell_there(wait.cell) {
            Ok(cell) => {
                let there = CellWait { cell, ..wait };
                self.wait_at(code, there, values, out)
            }
            Err(fault) => self.refuse(code, case_of(fault), out),
        }
    }

    /// The same at a cell that is there.
    fn wait_at(
        &mut self,
        code: &Checked,
        wait: CellWait,
        values: &mut Slots,
        out: &mut Slots,
    ) -> Result<StepEnd, AllocError>
        requires left { self.old.left ≡ true }
        requires room { self.old.steps < self.old.budget }
        requires goes_on { GoesOn self.old }
        requires cell { HasCell (initials self.old.objects) wait.cell }
        requires there { waiting_at code.now self.old wait.timed wait.expected wait.cell ≢ Stuck }
        ensures ok { IfOk result (λ end. answers end self.new ≡ waiting_at code.now self.old wait.timed wait.expected wait.cell) }
        ensures err { OnErr result (self.new ≡ self.old) }
        ensures stays { IfOk result (λ end. Stays end self.old self.new) }
    {
        let cell = wait.cell;
        let chosen = newest::<M, Brand>(&self.memory, self.thread, cell, Blank::new(1));
        let event = Event {
            thread: self.thread,
            kind: read(cell, Order::Relaxed, chosen),
        };
        if is_same_scalar(chosen.value, wait.expected) {
            return self.stand_waiting(event, cell, wait.timed);
        }
        tell(ANOTHER, values)?;
        self.log_on(code, event, Some(cell), 1, values, out)
    }

    /// The thread's read is logged, and it waits where it stands. Where the read races that is the ending, and it does not wait.
    #[tactic(auto, using(memory_acts::specs::FutexLaws::more_sound))]
    fn stand_waiting(
        &mut self,
        event: Event,
        cell: CellId,
        timed: bool,
    ) -> Result<StepEnd, AllocError>
        requires left { self.old.left ≡ true }
        requires room { self.old.steps < self.old.budget }
        requires goes_on { GoesOn self.old }
        requires makes { (i : ℕ) → makes_thread i event ≡ false }
        requires fits { EventFits self.old.rule (initials self.old.objects) self.old.log event }
        requires cell { HasRoom (record { thread = self.old.thread; cell = Some cell; events = 1 }) event }
        ensures ok { IfOk result (λ end. answers end self.new ≡ waits_with self.old event cell timed) }
        ensures err { OnErr result (self.new ≡ self.old) }
        ensures stays { IfOk result (λ end. Stays end self.old self.new) }
    {
        let lines = line_of(self.alloc, self.events, event)?;
        self.memory.reserve(self.thread, Some(cell), 1)?;
        // It waits first, as that may be refused. Of what races nothing is left, so it stops again then.
        self.seats.wait(self.thread, cell, timed)?;
        match commit::<M, Brand>(&mut self.memory, event, Blank::new(1)) {
            Some(race) => {
                self.seats.stop(self.thread);
                Ok(ended(self.alloc, self.race_ending(event, race)))
            }
            None => {
                self.events += 1;
                self.steps += 1;
                Ok(StepEnd::Went(lines))
            }
        }
    }
}
