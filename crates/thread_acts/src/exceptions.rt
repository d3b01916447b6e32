// Undefined cases, faults and exceptions.
ghost use Rattle.std.specs.Prelude.{◌≡◌, ◌≢◌, ◌<◌, Some, IfOk, OnErr, true};
ghost use Rattle.frames.specs.Chains.{frames_of};
ghost use Rattle.mu_model.specs.Outcomes.{Stuck};
ghost use Rattle.mu_model.specs.Acts as acts;
ghost use Rattle.frames.specs.Handlers.{first_handler};
ghost use Rattle.run_state.specs.Outcome.{Stays};
ghost use Rattle.run_state.specs.Acting.{answers, acting, faulting};

use crate::state::{State, ended};
use checked_code::Checked;
use client_hooks::Determined;
use frames::Unwound;
use mem_axioms::Memory;
use mu_model::{Case, Ending, StepEnd};
use mu_values::{Scalar, Slots};
use run_state::exceptions::{add_exception, handler_goal, is_fault};
use run_state::objects::leave_frames;
use std::alloc::AllocError;
use step_forms::{Variables, read_goal};

impl<M: Memory, C: Determined> State<M, C> {
    /// The thread's instruction meets an undefined case.
    #[tactic(auto, using(run_state::specs::ActLaws::refusals))]
    pub fn refuse(
        &mut self,
        code: &Checked,
        case: Case,
        out: &mut Slots,
    ) -> Result<StepEnd, AllocError>
        requires left { self.old.left ≡ true }
        requires room { self.old.steps < self.old.budget }
        requires there { acting code.now self.old (acts.Faults case) ≢ Stuck }
        ensures ok { IfOk result (λ end. answers end self.new ≡ acting code.now self.old (acts.Faults case)) }
        ensures err { OnErr result (self.new ≡ self.old) }
        ensures stays { IfOk result (λ end. Stays end self.old self.new) }
    {
        if is_fault(case) {
            self.fault(code, self.case_ending(case), out)
        } else {
            Ok(self.undefined(case))
        }
    }

    /// A fault goes to the exceptional destination of its instruction, with NULL, or ends the run so.
    #[tactic(auto, using(run_state::specs::ActLaws::faults))]
    pub fn fault(
        &mut self,
        code: &Checked,
        ending: Ending,
        out: &mut Slots,
    ) -> Result<StepEnd, AllocError>
        requires left { self.old.left ≡ true }
        requires room { self.old.steps < self.old.budget }
        requires there { faulting code.now self.old ending ≢ Stuck }
        ensures ok { IfOk result (λ end. answers end self.new ≡ faulting code.now self.old ending) }
        ensures err { OnErr result (self.new ≡ self.old) }
        ensures stays { IfOk result (λ end. Stays end self.old self.new) }
    {
        let top = self.frames.top();
        match &code.code(top.block, top.at).exceptional {
            None => Ok(ended(self.alloc, ending)),
            Some(target) => {
                read_goal(code, &Variables::of(&top.slots), target, out)?;
                add_exception(code, target.block, Scalar::Null, out)?;
                Ok(self.go(target.block, out))
            }
        }
    }

    /// The thread throws an exception.
    #[tactic(auto, using(run_state::specs::ActLaws::throw_uncaught))]
    pub fn throw(
        &mut self,
        code: &Checked,
        exception: Scalar,
        out: &mut Slots,
    ) -> Result<StepEnd, AllocError>
        requires left { self.old.left ≡ true }
        requires room { self.old.steps < self.old.budget }
        requires there { acting code.now self.old (acts.Throws exception) ≢ Stuck }
        ensures ok { IfOk result (λ end. answers end self.new ≡ acting code.now self.old (acts.Throws exception)) }
        ensures err { OnErr result (self.new ≡ self.old) }
        ensures stays { IfOk result (λ end. Stays end self.old self.new) }
    {
        match self.frames.unwind() {
            Unwound::Uncaught => Ok(self.undefined(Case::Uncaught)),
            Unwound::Caught(n) => self.catch(code, n, exception, out),
        }
    }

    /// The frame with that number catches the exception, and those above it end.
    #[tactic(auto, using(run_state::specs::ActLaws::throwing))]
    fn catch(
        &mut self,
        code: &Checked,
        n: u32,
        exception: Scalar,
        out: &mut Slots,
    ) -> Result<StepEnd, AllocError>
        requires left { self.old.left ≡ true }
        requires room { self.old.steps < self.old.budget }
        requires first { first_handler (frames_of self.old.frames) ≡ Some n }
        requires there { acting code.now self.old (acts.Throws exception) ≢ Stuck }
        ensures ok { IfOk result (λ end. answers end self.new ≡ acting code.now self.old (acts.Throws exception)) }
        ensures err { OnErr result (self.new ≡ self.old) }
        ensures stays { IfOk result (λ end. Stays end self.old self.new) }
    {
        let block = handler_goal(self.frames.frame(n), out)?;
        add_exception(code, block, exception, out)?;
        leave_frames(&mut self.frames, &mut self.heap, n);
        Ok(self.go(block, out))
    }
}
