// Stacks that are made and killed, a thread's own object, and what a thread tells of itself.
ghost use Rattle.std.specs.Prelude.{◌≡◌, ◌≢◌, ◌<◌, IsSome, Some, Err, IfOk, IfSome, IfNone, OnErr, slice_get, true};
ghost use Rattle.mu_values.specs.declared.scalars.Scalar.TheVariants as scalars;
ghost use Rattle.mu_model.specs.declared.endings.Case.TheVariants.{StackNotReady};
ghost use Rattle.mu_model.specs.EnteringStacks.{ready};
ghost use Rattle.mu_model.specs.Outcomes.{Stuck};
ghost use Rattle.mu_model.specs.Acts as acts;
ghost use Rattle.seats.specs.Seats.{IsReady};
ghost use Rattle.run_state.specs.Held.{held_stacks};
ghost use Rattle.run_state.specs.Outcome.{Stays};
ghost use Rattle.run_state.specs.Acting.{answers, acting};

use crate::state::State;
use checked_code::Checked;
use client_hooks::Determined;
use mem_axioms::{Event, Kind, Memory};
use memory_acts::accessing::{commit_other, line_of};
use mu_model::{Case, Note, StepEnd};
use mu_values::{Scalar, Slots};
use run_state::flow::go_on;
use run_state::objects::end_frames;
use run_state::results::line;
use stack_acts::adding::{Begun, give_stack};
use std::alloc::AllocError;
use std::marker::Brand;
use std::sync::ledger::Blank;

impl<M: Memory, C: Determined> State<M, C> {
    /// The thread's stack is told.
    #[tactic(auto, using(stack_acts::specs::StackLaws::tells_stack))]
    pub fn tell_stack(
        &mut self,
        code: &Checked,
        values: &mut Slots,
        out: &mut Slots,
    ) -> Result<StepEnd, AllocError>
        requires left { self.old.left ≡ true }
        requires room { self.old.steps < self.old.budget }
        requires there { acting code.now self.old acts.Tells ≢ Stuck }
        ensures ok { IfOk result (λ end. answers end self.new ≡ acting code.now self.old acts.Tells) }
        ensures err { OnErr result (self.new ≡ self.old) }
        ensures stays { IfOk result (λ end. Stays end self.old self.new) }
    {
        let stack = Scalar::Stack(self.stack);
        self.give_scalar(code, stack, values, out)
    }

    /// The thread's own object is told.
    #[tactic(auto, using(stack_acts::specs::StackLaws::telling_own))]
    pub fn tell_own(
        &mut self,
        code: &Checked,
        values: &mut Slots,
        out: &mut Slots,
    ) -> Result<StepEnd, AllocError>
        requires left { self.old.left ≡ true }
        requires room { self.old.steps < self.old.budget }
        requires there { acting code.now self.old acts.TellsOwn ≢ Stuck }
        ensures ok { IfOk result (λ end. answers end self.new ≡ acting code.now self.old acts.TellsOwn) }
        ensures err { OnErr result (self.new ≡ self.old) }
        ensures stays { IfOk result (λ end. Stays end self.old self.new) }
    {
        let own = self.seats.own(self.thread);
        self.give_scalar(code, own, values, out)
    }

    /// The thread has another own object from now on.
    #[tactic(auto, using(stack_acts::specs::StackLaws::setting_own))]
    pub fn set_own(
        &mut self,
        code: &Checked,
        own: Scalar,
        values: &mut Slots,
        out: &mut Slots,
    ) -> Result<StepEnd, AllocError>
        requires left { self.old.left ≡ true }
        requires room { self.old.steps < self.old.budget }
        requires there { acting code.now self.old (acts.SetsOwn own) ≢ Stuck }
        ensures ok { IfOk result (λ end. answers end self.new ≡ acting code.now self.old (acts.SetsOwn own)) }
        ensures err { OnErr result (self.new ≡ self.old) }
        ensures stays { IfOk result (λ end. Stays end self.old self.new) }
    {
        values.clear();
        go_on(code, &mut self.frames, values, out)?;
        self.seats.set_own(self.thread, own);
        Ok(self.went())
    }

    /// The thread ends.
    #[tactic(auto, using(run_state::specs::ActLaws::exit_finishes))]
    pub fn exit(&mut self, code: &Checked) -> Result<StepEnd, AllocError>
        requires left { self.old.left ≡ true }
        requires room { self.old.steps < self.old.budget }
        requires there { acting code.now self.old acts.Exits ≢ Stuck }
        ensures ok { IfOk result (λ end. answers end self.new ≡ acting code.now self.old acts.Exits) }
        ensures err { OnErr result (self.new ≡ self.old) }
        ensures stays { IfOk result (λ end. Stays end self.old self.new) }
    {
        let thread = self.thread;
        let lines = line(self.alloc, Note::Exited { thread })?;
        self.end_thread();
        self.steps += 1;
        Ok(StepEnd::Went(lines))
    }

    /// The thread makes a stack of a function.
    #[tactic(auto, using(stack_acts::specs::StackLaws::makes_stack))]
    pub fn make_stack(
        &mut self,
        code: &Checked,
        function: u32,
        values: &mut Slots,
        out: &mut Slots,
    ) -> Result<StepEnd, AllocError>
        requires left { self.old.left ≡ true }
        requires room { self.old.steps < self.old.budget }
        requires there { acting code.now self.old (acts.MakesStack function) ≢ Stuck }
        ensures ok { IfOk result (λ end. answers end self.new ≡ acting code.now self.old (acts.MakesStack function)) }
        ensures err { OnErr result (self.new ≡ self.old) }
        ensures stays { IfOk result (λ end. Stays end self.old self.new) }
    {
        let Some(block) = code.function(function).first else {
            return Ok(self.undefined(Case::NoBody));
        };
        let stack = self.seats.count();
        values.clear();
        values.push_scalar(Scalar::Stack(stack))?;
        let event = Event {
            thread: self.thread,
            kind: Kind::NewStack { stack },
        };
        let lines = line_of(self.alloc, self.events, event)?;
        self.memory.reserve(self.thread, None, 1)?;
        give_stack(
            self.alloc,
            code,
            Begun { function, block },
            &mut self.seats,
            &mut self.frames,
            values,
            out,
        )?;
        commit_other::<M, Brand>(&mut self.memory, event, Blank::new(1));
        self.events += 1;
        self.steps += 1;
        Ok(StepEnd::Went(lines))
    }

    /// The number of the stack that a scalar names, where that is ready. None comes exactly where it is not.
    #[tactic(auto, using(stack_acts::specs::StackLaws::names_stack))]
    pub fn ready_stack(&self, scalar: Scalar) -> Option<u32>
        requires there { IsSome (ready (held_stacks self.now) scalar) }
        ensures named { IfSome result (λ n. scalar ≡ scalars.Stack n) }
        ensures other { IfSome result (λ n. n ≢ self.now.stack) }
        ensures ready { IfSome result (λ n. IsReady (slice_get self.now.seats.stacks n)) }
        ensures none { IfNone result (ready (held_stacks self.now) scalar ≡ Some (Err StackNotReady)) }
    {
        match scalar {
            Scalar::Stack(stack) => {
                // The thread's own stack is active.
                if stack == self.stack {
                    return None;
                }
                self.seats.ready(stack).map(|_| stack)
            }
            _ => None,
        }
    }

    /// The thread kills a stack.
    #[tactic(auto, using(stack_acts::specs::StackLaws::kills_stack))]
    pub fn kill_stack(
        &mut self,
        code: &Checked,
        scalar: Scalar,
        values: &mut Slots,
        out: &mut Slots,
    ) -> Result<StepEnd, AllocError>
        requires left { self.old.left ≡ true }
        requires room { self.old.steps < self.old.budget }
        requires there { acting code.now self.old (acts.KillsStack scalar) ≢ Stuck }
        ensures ok { IfOk result (λ end. answers end self.new ≡ acting code.now self.old (acts.KillsStack scalar)) }
        ensures err { OnErr result (self.new ≡ self.old) }
        ensures stays { IfOk result (λ end. Stays end self.old self.new) }
    {
        let Some(stack) = self.ready_stack(scalar) else {
            return Ok(self.undefined(Case::StackNotReady));
        };
        values.clear();
        go_on(code, &mut self.frames, values, out)?;
        let frames = self.seats.kill(stack);
        end_frames(&frames, &mut self.heap);
        Ok(self.went())
    }
}
