// The machine.
ghost use Rattle.std.specs.Prelude.{◌≡◌, ◌≢◌, ℕ, ◌≤◌, ◌==◌, [], IsSome, IsSomeAnd, Some, IfOk, List, OnErr, length, true, false, ◌||◌};
ghost use Rattle.checked_code.specs.Checking.{bundle_tables};
ghost use Rattle.mu_model.specs.declared.endings.StepEnd.TheVariants.{Went, Ended};
ghost use Rattle.mu_model.specs.Programs.{named};
ghost use Rattle.mu_model.specs.Outcomes.{Stuck};
ghost use Rattle.mu_model.specs.Step.{runnable, step};
ghost use Rattle.mu_model.specs.Run.{cells_left, first_configuration};
ghost use Rattle.client_hooks.specs.Ways.{client_answers_by};
ghost use Rattle.mu_step.specs.LeastLocal.{IsLeastAt};
ghost use Rattle.mu_step.specs.Running.{gives_ending, without_lines};
ghost use Rattle.run_state.specs.Outcome.{outcome_of, Stays};
ghost use Rattle.run_state.specs.Options.{step_options};

use crate::at_once::step_at_once;
use crate::locals::least_local;
use crate::options::options;
use crate::step::step;
use checked_code::Checked;
use client_hooks::Determined;
use good_casts::GoodCasts;
use mem_axioms::Memory;
use model_numbers::programs_are_same;
use mu_model::{Ending, Lines, StepEnd};
use mu_threads::Schedule;
use run_start::RunInputs;
use stack_moves::lists::Lists;
use std::alloc::{AllocError, Global};
use std::marker::Model;
use std::mem;
use step_forms::CaseRows;
use thread_acts::state::State;

/// A machine that runs checked code, over any memory, and with any client that answers by a way: its answers are a function of what it is
/// shown and of the value that it stands for. Contracts see the bundle, the configuration that its run has come to, and whether the run's
/// ending was told.
#[derive(Drop)]
pub struct Machine<'a, M: Memory, C: Determined> {
    code: &'a Checked,
    state: State<M, C>,
    rows: CaseRows<'a>,
    casts: GoodCasts,
    lists: Lists,
    ended: bool,
}

impl<'a, M: Memory, C: Determined> Model for Machine<'a, M, C> {
    ghost use Rattle.std.specs.Prelude.{◌≡◌};
    ghost use Rattle.checked_code.specs.Checking.{bundle_tables};
    ghost use Rattle.mu_step.specs.Running.{Running};
    ghost use Rattle.run_state.specs.Held.{configuration};
    ghost use Rattle.good_casts.specs.Good.{AreGood};

    ghost Value = { Running };

    ghost view = { λ m. record { bundle = m.code.now; configuration = configuration m.state; ended = m.ended } };

    ghost invariant = { λ m. (m.state.skip ≡ 0) × (m.rows ≡ m.code.now) × AreGood (bundle_tables m.code.now) m.state.objects m.casts };
}

impl<'a, M: Memory + Drop, C: Determined + Drop> Machine<'a, M, C> {
    /// A machine at the beginning of the run of a function: thread 0 stands on stack 0, where the function's first block begins. The
    /// run has the objects of the heap, which are to be those of the globals and then those that were loaded, and as many cells as the
    /// heap has left. The memory knows nothing yet, and brings the rule of release sequences. The budget is 1,000,000 steps at most.
    #[tactic(auto, using(run_start::specs::Starting::begins))]
    pub fn new(
        alloc: Global,
        code: &'a Checked,
        entry: u32,
        inputs: RunInputs<M, C>,
    ) -> Result<Machine<'a, M, C>, AllocError>
        requires log { M.log inputs.memory ≡ [] }
        requires objects { M.objects inputs.memory ≡ [] }
        requires budget { inputs.budget ≤ 1000000 }
        requires body { IsSomeAnd ((named code.now).body entry) IsSome }
        ensures bundle { IfOk result (λ m. m.bundle ≡ code.now) }
        ensures fresh { IfOk result (λ m. m.ended ≡ false) }
        ensures first { IfOk result (λ m. (cells : ℕ) → inputs.heap.left ≡ cells_left (bundle_tables code.now) cells inputs.heap.objects
            → first_configuration (named code.now) (record { objects = inputs.heap.objects; client = C.stands_for inputs.client; picks = inputs.picks; cells = cells; budget = inputs.budget; rule = M.rule inputs.memory }) entry ≡ Some m.configuration) }
    {
        let _items = code.items();
        programs_are_same();
        let state = State::start(alloc, code, entry, inputs)?;
        Ok(Machine {
            code,
            state,
            rows: CaseRows::new(alloc, code),
            casts: GoodCasts::new(alloc),
            lists: Lists::new(alloc),
            ended: false,
        })
    }

    /// Makes the next step where that is a frequent one, which writes nothing: an instruction that computes a scalar, that only goes to a
    /// block (a SWITCH is one of them), that calls a function, or that returns to the frame below. It takes no memory once the lists of
    /// the block are long enough, but for what a call keeps until its return, and, when a SWITCH is first come to, for the row of its
    /// constants and for a place for the row of each block up to its own. Else nothing changes, and `step` makes it.
    #[tactic(auto, using(crate::specs::Machines::machines))]
    pub fn advance(&mut self) -> bool
        requires there { client_answers_by C.way (named self.old.bundle) self.old.configuration.client (step (named self.old.bundle) self.old.configuration) ≢ Stuck }
        ensures made { result ≡ true → outcome_of (Went []) self.new.configuration ≡ client_answers_by C.way (named self.old.bundle) self.old.configuration.client (step (named self.old.bundle) self.old.configuration) }
        ensures bundle { self.new.bundle ≡ self.old.bundle }
        ensures ended { self.new.ended ≡ self.old.ended }
        ensures left { result ≡ false → self.new ≡ self.old }
    {
        let _items = self.code.items();
        programs_are_same();
        let code = self.code;
        step_at_once(&mut self.state, code, &mut self.rows, &mut self.lists)
    }

    /// Tells the ending: the first time with the lines of its step, and then with none.
    fn end(&mut self, lines: Lines, ending: Ending) -> StepEnd
        ensures first { self.old.ended ≡ false → result ≡ Ended lines ending }
        ensures again { self.old.ended ≡ true → result ≡ Ended [] ending }
        ensures new { self.new ≡ record self.old { ended = true } }
    {
        if self.ended {
            StepEnd::Ended(Lines::new(self.state.alloc), ending)
        } else {
            self.ended = true;
            StepEnd::Ended(lines, ending)
        }
    }

    /// One step of the run. At a trap the client answers, and goes past its answer where that is taken. Where no memory is found nothing
    /// changes. Where the step gives the ending the run stays where it is, and the next step gives the same ending, with no lines.
    #[tactic(auto, using(crate::specs::Machines::machines))]
    pub fn step(&mut self) -> Result<StepEnd, AllocError>
        requires there { client_answers_by C.way (named self.old.bundle) self.old.configuration.client (step (named self.old.bundle) self.old.configuration) ≢ Stuck }
        ensures ok { IfOk result (λ end. self.old.ended ≡ false → outcome_of end self.new.configuration ≡ client_answers_by C.way (named self.old.bundle) self.old.configuration.client (step (named self.old.bundle) self.old.configuration)) }
        ensures again { IfOk result (λ end. self.old.ended ≡ true → outcome_of end self.new.configuration ≡ without_lines (client_answers_by C.way (named self.old.bundle) self.old.configuration.client (step (named self.old.bundle) self.old.configuration))) }
        ensures ended { IfOk result (λ end. self.new.ended ≡ (self.old.ended || gives_ending end)) }
        ensures bundle { self.new.bundle ≡ self.old.bundle }
        ensures err { OnErr result (self.new ≡ self.old) }
        ensures stays { IfOk result (λ end. Stays end self.old.configuration self.new.configuration) }
    {
        let _items = self.code.items();
        programs_are_same();
        let code = self.code;
        let made = step(&mut self.state, code, &mut self.casts, &mut self.lists);
        match made {
            Ok(StepEnd::Went(lines)) => Ok(StepEnd::Went(lines)),
            Ok(StepEnd::Ended(lines, ending)) => Ok(self.end(lines, ending)),
            Err(refused) => Err(refused),
        }
    }

    /// How many threads may make the next step.
    pub fn runnable(&self) -> u32
        ensures { result ≡ length (runnable self.now.configuration) }
    {
        self.state.seats.runnable()
    }

    /// Whether so many steps were made as may be.
    pub fn is_spent(&self) -> bool
        ensures { result ≡ (self.now.configuration.steps == self.now.configuration.budget) }
    {
        self.state.steps == self.state.budget
    }

    /// How many options the next step has to pick from, once its thread is picked: those of its access, where it has one and the cell is
    /// there, else 1. The machine stays as it is, also where no memory is found.
    #[tactic(auto, using(crate::specs::Machines::machines, crate::specs::Machines::options_same))]
    pub fn options(&mut self) -> Result<u32, AllocError>
        requires there { client_answers_by C.way (named self.old.bundle) self.old.configuration.client (step (named self.old.bundle) self.old.configuration) ≢ Stuck }
        ensures count { IfOk result (λ n. n ≡ step_options (named self.old.bundle) self.old.configuration) }
        ensures same { self.new ≡ self.old }
    {
        let _items = self.code.items();
        programs_are_same();
        let code = self.code;
        let count = options(&mut self.state, code, &mut self.lists.room)?;
        Ok(count)
    }

    /// Exchanges the numbers of the schedule that are left for these, and answers with those that were left. It takes constant time and
    /// no memory.
    pub fn set_picks(&mut self, picks: Schedule) -> Schedule
        ensures left { result ≡ self.old.configuration.picks }
        ensures new { self.new ≡ record self.old { configuration = record self.old.configuration { picks = picks } } }
    {
        mem::replace(&mut self.state.picks, picks)
    }

    /// The place, among the threads that may make the next step, of the least one whose step is local, so that no other thread can see it:
    /// it does not wait, and its instruction gives values, goes to a block, calls a function that has a body, or returns from a frame
    /// without objects. None where there is no such thread, and where no step may be made any more. The machine stays as it is, also where
    /// no memory is found.
    #[tactic(auto, using(crate::specs::Machines::least_machines))]
    pub fn least_local(&mut self) -> Result<Option<u32>, AllocError>
        requires rules { (picks : List ℕ) → client_answers_by C.way (named self.old.bundle) self.old.configuration.client (step (named self.old.bundle) (record self.old.configuration { picks = picks })) ≢ Stuck }
        ensures least { IfOk result (IsLeastAt (named self.old.bundle) self.old.configuration) }
        ensures same { self.new ≡ self.old }
    {
        let _items = self.code.items();
        programs_are_same();
        let code = self.code;
        least_local(&mut self.state, code, &mut self.lists.room)
    }
}
