// Accesses of memory, and fences.
ghost use Rattle.std.specs.Prelude.{◌≡◌, ◌≢◌, ℕ, ◌+◌, ◌<◌, ◌++◌, IsSome, IfSome, IfOk, OnErr, true, false};
ghost use Rattle.mem_axioms.specs.Objects.{HasCell};
ghost use Rattle.mem_axioms.specs.Races.{race};
ghost use Rattle.mem_axioms.specs.EventFits.{EventFits};
ghost use Rattle.mem_axioms.specs.Rooms.{HasRoom};
ghost use Rattle.mem_axioms.specs.Synchronizes.{makes_thread};
ghost use Rattle.mu_model.specs.Acts as acts;
ghost use Rattle.mu_threads.specs.Picks.{pick};
ghost use Rattle.mu_model.specs.Outcomes.{Stuck};
ghost use Rattle.frames.specs.Chains.{stands};
ghost use Rattle.step_forms.specs.Asked.{access_of};
ghost use Rattle.run_state.specs.Held.{ahead};
ghost use Rattle.run_state.specs.Outcome.{Stays};
ghost use Rattle.run_state.specs.Acting.{answers, acting, goes_on};
ghost use Rattle.run_state.specs.Remembering.{initials};
ghost use Rattle.memory_acts.specs.Accessing.{picking, race_at, logs};

use crate::state::{State, ended};
use checked_code::Checked;
use client_hooks::Determined;
use mem_axioms::{Event, Kind, Memory, Race};
use memory_acts::accessing::{
    Asked, commit, commit_next, kind_of, line_of, option_picked, take_picks, wanted, write_results,
};
use mu_base::Order;
use mu_model::{Case, Ending, Raced, StepEnd};
use mu_values::{CellId, Slots};
use object_acts::finding::case_of;
use run_state::flow::{Place, next_place, passing, stand};
use std::alloc::AllocError;
use std::marker::Brand;
use std::sync::ledger::Blank;
use step_forms::Access;

impl<M: Memory, C: Determined> State<M, C> {
    /// The thread accesses a cell. Where no memory is found the state is as before; the lists may have changed.
    #[tactic(auto, using(memory_acts::specs::AccessLaws::accessing))]
    pub fn access(
        &mut self,
        code: &Checked,
        access: Access,
        cell: CellId,
        values: &mut Slots,
        out: &mut Slots,
    ) -> Result<StepEnd, AllocError>
        requires left { self.old.left ≡ true }
        requires room { self.old.steps < self.old.budget }
        requires there { acting code.now self.old (acts.Accesses (access_of access) cell) ≢ Stuck }
        ensures ok { IfOk result (λ end. answers end self.new ≡ acting code.now self.old (acts.Accesses (access_of access) cell)) }
        ensures err { OnErr result (self.new ≡ self.old) }
        ensures stays { IfOk result (λ end. Stays end self.old self.new) }
    {
        match self.cell_there(cell) {
            Ok(cell) => self.access_cell(code, access, cell, values, out),
            Err(fault) => self.refuse(code, case_of(fault), out),
        }
    }

    /// The thread accesses a cell that is there.
    fn access_cell(
        &mut self,
        code: &Checked,
        access: Access,
        cell: CellId,
        values: &mut Slots,
        out: &mut Slots,
    ) -> Result<StepEnd, AllocError>
        requires left { self.old.left ≡ true }
        requires room { self.old.steps < self.old.budget }
        requires cell { HasCell (initials self.old.objects) cell }
        requires there { picking code.now self.old (access_of access) cell ≢ Stuck }
        ensures ok { IfOk result (λ end. answers end self.new ≡ picking code.now self.old (access_of access) cell) }
        ensures err { OnErr result (self.new ≡ self.old) }
        ensures stays { IfOk result (λ end. Stays end self.old self.new) }
    {
        let asked = Asked {
            thread: self.thread,
            cell,
            wanted: wanted(access),
        };
        let (options, chosen) = option_picked::<M, Brand>(
            &self.memory,
            asked,
            &self.picks,
            self.skip,
            Blank::new(1),
        );
        let event = Event {
            thread: self.thread,
            kind: kind_of(access, cell, chosen),
        };
        write_results(access, chosen, values)?;
        self.log_on(code, event, Some(cell), options, values, out)
    }

    /// The ending of a run whose last event races.
    pub(crate) fn race_ending(&self, event: Event, race: Race) -> Ending
        ensures { result ≡ race_at self.now event race.earlier }
    {
        let top = self.frames.top();
        Ending::Undefined {
            case: Case::DataRace,
            thread: self.thread,
            block: top.block,
            at: top.at,
            race: Some(Raced {
                event,
                earlier: race.earlier,
            }),
        }
    }

    /// The thread's event is logged, and it goes on at a place, with the values in the list for its variables; a pick among so many
    /// options is taken. Where the event races that is the ending. Where no memory is found the state is as before; the list may have
    /// changed.
    pub(crate) fn log(
        &mut self,
        event: Event,
        cell: Option<CellId>,
        options: u32,
        place: Place,
        out: &mut Slots,
    ) -> Result<StepEnd, AllocError>
        requires left { self.old.left ≡ true }
        requires room { self.old.steps < self.old.budget }
        requires makes { (i : ℕ) → makes_thread i event ≡ false }
        requires fits { EventFits self.old.rule (initials self.old.objects) self.old.log event }
        requires cell { HasRoom (record { thread = self.old.thread; cell = cell; events = 1 }) event }
        requires options { 0 < options }
        ensures ok { IfOk result (λ end. answers end self.new ≡ logs self.old event (pick options (ahead self.old)).1 (record self.old.frames { top = stands self.old.frames.top place.block place.at out.old.values })) }
        ensures err { OnErr result (self.new ≡ self.old) }
        ensures stays { IfOk result (λ end. Stays end self.old self.new) }
    {
        let lines = line_of(self.alloc, self.events, event)?;
        self.memory.reserve(self.thread, cell, 1)?;
        match commit::<M, Brand>(&mut self.memory, event, Blank::new(1)) {
            Some(race) => Ok(ended(self.alloc, self.race_ending(event, race))),
            None => {
                stand(&mut self.frames, place, out);
                take_picks(&mut self.picks, &mut self.skip, options);
                self.events += 1;
                self.steps += 1;
                Ok(StepEnd::Went(lines))
            }
        }
    }

    /// The thread's event is logged, and it goes on at a place of its block with these results behind its own variables; a pick among so
    /// many options is taken. Where the event races that is the ending. Where no memory is found nothing changes.
    fn log_next(
        &mut self,
        event: Event,
        cell: Option<CellId>,
        options: u32,
        at: u32,
        results: &Slots,
    ) -> Result<StepEnd, AllocError>
        requires left { self.old.left ≡ true }
        requires room { self.old.steps < self.old.budget }
        requires makes { (i : ℕ) → makes_thread i event ≡ false }
        requires fits { EventFits self.old.rule (initials self.old.objects) self.old.log event }
        requires cell { HasRoom (record { thread = self.old.thread; cell = cell; events = 1 }) event }
        requires options { 0 < options }
        ensures ok { IfOk result (λ end. answers end self.new ≡ logs self.old event (pick options (ahead self.old)).1 (record self.old.frames { top = stands self.old.frames.top self.old.frames.top.block at (self.old.frames.top.vars ++ results.now.values) })) }
        ensures err { OnErr result (self.new ≡ self.old) }
        ensures stays { IfOk result (λ end. Stays end self.old self.new) }
    {
        let lines = line_of(self.alloc, self.events, event)?;
        self.memory.reserve(self.thread, cell, 1)?;
        match commit_next::<M, Brand>(
            &mut self.memory,
            &mut self.frames,
            event,
            at,
            results,
            Blank::new(1),
        ) {
            Err(refused) => Err(refused),
            Ok(Some(race)) => Ok(ended(self.alloc, self.race_ending(event, race))),
            Ok(None) => {
                take_picks(&mut self.picks, &mut self.skip, options);
                self.events += 1;
                self.steps += 1;
                Ok(StepEnd::Went(lines))
            }
        }
    }

    /// The thread's event is logged, and it goes on with these results of its instruction; a pick among so many options is taken. Where
    /// the event races that is the ending. Where no memory is found the state is as before; the list may have changed.
    pub(crate) fn log_on(
        &mut self,
        code: &Checked,
        event: Event,
        cell: Option<CellId>,
        options: u32,
        results: &Slots,
        out: &mut Slots,
    ) -> Result<StepEnd, AllocError>
        requires left { self.old.left ≡ true }
        requires room { self.old.steps < self.old.budget }
        requires makes { (i : ℕ) → makes_thread i event ≡ false }
        requires fits { EventFits self.old.rule (initials self.old.objects) self.old.log event }
        requires cell { HasRoom (record { thread = self.old.thread; cell = cell; events = 1 }) event }
        requires options { 0 < options }
        requires there { IsSome (goes_on code.now self.old.frames.top results.now.values) }
        ensures ok { IfOk result (λ end. IfSome (goes_on code.now self.old.frames.top results.now.values) (λ f. answers end self.new ≡ logs self.old event (pick options (ahead self.old)).1 (record self.old.frames { top = f }))) }
        ensures err { OnErr result (self.new ≡ self.old) }
        ensures stays { IfOk result (λ end. Stays end self.old self.new) }
    {
        match next_place(code, self.frames.top()) {
            Some(at) => self.log_next(event, cell, options, at, results),
            None => {
                let place = passing(code, self.frames.top(), results, out)?;
                self.log(event, cell, options, place, out)
            }
        }
    }

    /// The thread passes a fence.
    pub fn fence(
        &mut self,
        code: &Checked,
        order: Order,
        values: &mut Slots,
        out: &mut Slots,
    ) -> Result<StepEnd, AllocError>
        requires left { self.old.left ≡ true }
        requires room { self.old.steps < self.old.budget }
        requires there { acting code.now self.old (acts.Fences order) ≢ Stuck }
        ensures ok { IfOk result (λ end. answers end self.new ≡ acting code.now self.old (acts.Fences order)) }
        ensures err { OnErr result (self.new ≡ self.old) }
        ensures stays { IfOk result (λ end. Stays end self.old self.new) }
    {
        let event = Event {
            thread: self.thread,
            kind: Kind::Fence { order },
        };
        values.clear();
        self.log_on(code, event, None, 1, values, out)
    }
}
