// Returns.
ghost use Rattle.std.specs.Prelude.{◌≡◌, ◌≢◌, ◌<◌, [], ◌++◌, IfSome, IfOk, OnErr, drop, length, slice_get, true, false};
ghost use Rattle.frames.specs.Chains.{stands};
ghost use Rattle.mu_model.specs.declared.endings.StepEnd.TheVariants.{Went};
ghost use Rattle.mu_model.specs.Outcomes.{Stuck};
ghost use Rattle.mu_model.specs.Acts as acts;
ghost use Rattle.run_state.specs.Outcome.{Stays};
ghost use Rattle.run_state.specs.Acting.{answers, acting, went_on, objects_end};

use crate::state::State;
use checked_code::Checked;
use client_hooks::Determined;
use mem_axioms::Memory;
use mu_model::{Lines, Note, StepEnd};
use mu_values::Slots;
use run_state::flow::{next_place, passing, stand};
use run_state::objects::{end_objects, leave_for};
use run_state::results::{line, taken};
use std::alloc::AllocError;
use step_forms::Room;

impl<M: Memory, C: Determined> State<M, C> {
    /// The thread returns from its function, with the values in the room.
    #[tactic(auto, using(run_state::specs::ActLaws::only_frame))]
    pub fn give_back(
        &mut self,
        code: &Checked,
        room: &mut Room,
        out: &mut Slots,
    ) -> Result<StepEnd, AllocError>
        requires left { self.old.left ≡ true }
        requires room { self.old.steps < self.old.budget }
        requires there { acting code.now self.old (acts.Returns (record { types = room.old.types.members; values = room.old.values.values })) ≢ Stuck }
        ensures ok { IfOk result (λ end. answers end self.new ≡ acting code.now self.old (acts.Returns (record { types = room.old.types.members; values = room.old.values.values }))) }
        ensures err { OnErr result (self.new ≡ self.old) }
        ensures stays { IfOk result (λ end. Stays end self.old self.new) }
    {
        if self.frames.count() == 1 {
            self.finish(code, room)
        } else if self.return_at_once(code, room, out) {
            Ok(StepEnd::Went(Lines::new(self.alloc)))
        } else {
            Err(AllocError)
        }
    }

    /// The bottom frame returns, and the thread ends.
    fn finish(&mut self, code: &Checked, room: &mut Room) -> Result<StepEnd, AllocError>
        requires left { self.old.left ≡ true }
        requires room { self.old.steps < self.old.budget }
        requires bottom { self.old.frames.below ≡ [] }
        requires there { acting code.now self.old (acts.Returns (record { types = room.old.types.members; values = room.old.values.values })) ≢ Stuck }
        ensures ok { IfOk result (λ end. answers end self.new ≡ acting code.now self.old (acts.Returns (record { types = room.old.types.members; values = room.old.values.values }))) }
        ensures err { OnErr result (self.new ≡ self.old) }
        ensures stays { IfOk result (λ end. Stays end self.old self.new) }
    {
        let values = taken(self.alloc, room)?;
        let thread = self.thread;
        let lines = line(self.alloc, Note::Returned { thread, values })?;
        self.end_thread();
        self.steps += 1;
        Ok(StepEnd::Went(lines))
    }

    /// The thread returns from its function to the frame below it, which goes on with the values in the room, where there is one and memory
    /// is found. Else nothing changes. It is not inlined, so that a step of another instruction does not carry its code.
    #[tactic(auto, using(run_state::specs::ActLaws::only_frame))]
    #[inline(never)]
    pub fn return_at_once(&mut self, code: &Checked, room: &mut Room, out: &mut Slots) -> bool
        requires left { self.old.left ≡ true }
        requires room { self.old.steps < self.old.budget }
        requires there { acting code.now self.old (acts.Returns (record { types = room.old.types.members; values = room.old.values.values })) ≢ Stuck }
        ensures made { result ≡ true → answers (Went []) self.new ≡ acting code.now self.old (acts.Returns (record { types = room.old.types.members; values = room.old.values.values })) }
        ensures left { result ≡ false → self.new ≡ self.old }
    {
        if self.frames.count() == 1 {
            return false;
        }
        match next_place(code, self.frames.frame(1)) {
            Some(at) => self.leave_next(at, room),
            None => self.leave_elsewhere(code, room, out),
        }
    }

    /// The top frame ends, and the one below it goes on at that place of its block, with the values in the room behind its variables,
    /// where memory is found. Else nothing changes.
    fn leave_next(&mut self, at: u32, room: &mut Room) -> bool
        requires left { self.old.left ≡ true }
        requires room { self.old.steps < self.old.budget }
        requires below { 0 < length self.old.frames.below }
        ensures made { result ≡ true → IfSome (slice_get self.old.frames.below 0) (λ f. answers (Went []) self.new ≡ went_on (record self.old { frames = record { top = stands f f.block at (f.vars ++ room.old.values.values); below = drop 1 self.old.frames.below }; objects = objects_end self.old.objects self.old.frames.top.objects })) }
        ensures left { result ≡ false → self.new ≡ self.old }
    {
        let values = &room.values;
        let Ok(objects) = self.frames.leave_to(at, values, &mut room.others) else {
            return false;
        };
        end_objects(&mut self.heap, objects.as_slice());
        self.count();
        true
    }

    /// The top frame ends, and the one below it goes on at the destination of its instruction, or begins, with the values in the room,
    /// where memory is found. Else nothing changes.
    #[tactic(auto, using(run_state::specs::ActLaws::returning))]
    fn leave_elsewhere(&mut self, code: &Checked, room: &mut Room, out: &mut Slots) -> bool
        requires left { self.old.left ≡ true }
        requires room { self.old.steps < self.old.budget }
        requires below { 0 < length self.old.frames.below }
        requires there { acting code.now self.old (acts.Returns (record { types = room.old.types.members; values = room.old.values.values })) ≢ Stuck }
        ensures made { result ≡ true → answers (Went []) self.new ≡ acting code.now self.old (acts.Returns (record { types = room.old.types.members; values = room.old.values.values })) }
        ensures left { result ≡ false → self.new ≡ self.old }
    {
        let Ok(place) = passing(code, self.frames.frame(1), &room.values, out) else {
            return false;
        };
        end_objects(&mut self.heap, self.frames.top().cells.as_slice());
        leave_for(&mut self.frames, &mut room.others);
        stand(&mut self.frames, place, out);
        self.count();
        true
    }
}
