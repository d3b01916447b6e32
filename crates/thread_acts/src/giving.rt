// What the thread's instruction gives, and where the thread goes on.
ghost use Rattle.std.specs.Prelude.{◌≡◌, ◌≢◌, ◌+◌, ◌<◌, [], ◌∷◌, ◌++◌, IfOk, OnErr, true, false};
ghost use Rattle.frames.specs.Chains.{stands};
ghost use Rattle.mu_model.specs.declared.endings.StepEnd.TheVariants.{Went};
ghost use Rattle.mu_model.specs.Outcomes.{Stuck};
ghost use Rattle.mu_model.specs.Acts as acts;
ghost use Rattle.run_state.specs.Held.{Held};
ghost use Rattle.run_state.specs.Outcome.{Stays};
ghost use Rattle.run_state.specs.Acting.{answers, went_on, acting};

use crate::state::State;
use checked_code::Checked;
use client_hooks::Determined;
use mem_axioms::Memory;
use mu_model::{Lines, StepEnd};
use mu_values::{Scalar, Slots};
use run_state::flow::{go_on, push_on_top};
use std::alloc::AllocError;

impl<M: Memory, C: Determined> State<M, C> {
    /// The thread's instruction has these results. Where no memory is found the state is as before; the list may have changed.
    #[tactic(auto, using(run_state::specs::ActLaws::giving))]
    pub fn give(
        &mut self,
        code: &Checked,
        results: &Slots,
        out: &mut Slots,
    ) -> Result<StepEnd, AllocError>
        requires left { self.old.left ≡ true }
        requires room { self.old.steps < self.old.budget }
        requires there { acting code.now self.old (acts.Gives results.now.values) ≢ Stuck }
        ensures ok { IfOk result (λ end. answers end self.new ≡ acting code.now self.old (acts.Gives results.now.values)) }
        ensures err { OnErr result (self.new ≡ self.old) }
        ensures stays { IfOk result (λ end. (s t : Held) → Stays end s t) }
    {
        go_on(code, &mut self.frames, results, out)?;
        Ok(self.went())
    }

    /// The thread's instruction has one result, of one scalar. Where no memory is found the state is as before; the lists may have
    /// changed.
    pub fn give_scalar(
        &mut self,
        code: &Checked,
        scalar: Scalar,
        values: &mut Slots,
        out: &mut Slots,
    ) -> Result<StepEnd, AllocError>
        requires left { self.old.left ≡ true }
        requires room { self.old.steps < self.old.budget }
        requires there { acting code.now self.old (acts.Gives ((scalar ∷ []) ∷ [])) ≢ Stuck }
        ensures ok { IfOk result (λ end. answers end self.new ≡ acting code.now self.old (acts.Gives ((scalar ∷ []) ∷ []))) }
        ensures err { OnErr result (self.new ≡ self.old) }
        ensures stays { IfOk result (λ end. (s t : Held) → Stays end s t) }
    {
        if self.give_at_once(code, scalar) {
            return Ok(StepEnd::Went(Lines::new(self.alloc)));
        }
        values.clear();
        values.push_scalar(scalar)?;
        self.give(code, values, out)
    }

    /// The thread's instruction has one result, of one scalar, and goes on at the next place, where memory is found. Else nothing
    /// changes.
    fn push_at_once(&mut self, scalar: Scalar) -> bool
        requires left { self.old.left ≡ true }
        requires room { self.old.steps < self.old.budget }
        ensures made { result ≡ true → answers (Went []) self.new ≡ went_on (record self.old { frames = record self.old.frames { top = stands self.old.frames.top self.old.frames.top.block (self.old.frames.top.at + 1) (self.old.frames.top.vars ++ (scalar ∷ []) ∷ []) } }) }
        ensures left { result ≡ false → self.new ≡ self.old }
    {
        if push_on_top(&mut self.frames, scalar).is_err() {
            return false;
        }
        self.count();
        true
    }

    /// The thread's instruction has one result, of one scalar, where it goes on at the next place and memory is found. Else nothing
    /// changes.
    #[tactic(auto, using(run_state::specs::ActLaws::giving_next))]
    pub fn give_at_once(&mut self, code: &Checked, scalar: Scalar) -> bool
        requires left { self.old.left ≡ true }
        requires room { self.old.steps < self.old.budget }
        requires there { acting code.now self.old (acts.Gives ((scalar ∷ []) ∷ [])) ≢ Stuck }
        ensures made { result ≡ true → answers (Went []) self.new ≡ acting code.now self.old (acts.Gives ((scalar ∷ []) ∷ [])) }
        ensures left { result ≡ false → self.new ≡ self.old }
    {
        let top = self.frames.top();
        if top.fresh {
            return false;
        }
        match &code.code(top.block, top.at).normal {
            None => self.push_at_once(scalar),
            Some(_) => false,
        }
    }

    /// The thread goes to a block with these values, and that is all of the step.
    pub fn go_at_once(&mut self, block: u32, values: &mut Slots)
        requires left { self.old.left ≡ true }
        requires room { self.old.steps < self.old.budget }
        ensures { answers (Went []) self.new ≡ went_on (record self.old { frames = record self.old.frames { top = stands self.old.frames.top block 0 values.old.values } }) }
    {
        self.frames.jump(block, values);
        self.count();
    }

    /// The thread goes to a block with these values.
    pub fn go(&mut self, block: u32, values: &mut Slots) -> StepEnd
        requires left { self.old.left ≡ true }
        requires room { self.old.steps < self.old.budget }
        ensures on { answers result self.new ≡ went_on (record self.old { frames = record self.old.frames { top = stands self.old.frames.top block 0 values.old.values } }) }
        ensures end { (s t : Held) → Stays result s t }
    {
        self.frames.jump(block, values);
        self.went()
    }
}
