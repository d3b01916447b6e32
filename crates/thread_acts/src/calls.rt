// Calls.
ghost use Rattle.std.specs.Prelude.{◌≡◌, ◌≢◌, ◌<◌, [], IsSome, None, IfOk, IfSome, OnErr, true, false};
ghost use Rattle.checked_code.specs.Checking.{bundle_tables};
ghost use Rattle.frames.specs.Chains.{nothing_kept};
ghost use Rattle.mu_model.specs.declared.endings.StepEnd.TheVariants.{Went};
ghost use Rattle.mu_model.specs.Outcomes.{Stuck};
ghost use Rattle.mu_model.specs.Acts as acts;
ghost use Rattle.mu_model.specs.Types.{classes_given};
ghost use Rattle.run_state.specs.Held.{Held};
ghost use Rattle.run_state.specs.Outcome.{Stays};
ghost use Rattle.run_state.specs.Acting.{answers, went_on, acting, awaited, entered, entered_above, objects_end};

use crate::state::State;
use checked_code::Checked;
use client_hooks::Determined;
use frames::Frames;
use mem_axioms::Memory;
use mu_model::{Case, Lines, StepEnd};
use mu_values::Slots;
use run_state::objects::end_objects;
use run_state::waiting::{enter, entered, read_classes_given, waiting, waits_for_values};
use std::alloc::{AllocError, Global};
use std::mem;
use step_forms::Room;

/// The top frame is that of a function that is entered with these values at that block.
fn replace_top(frames: &mut Frames, block: u32, values: &mut Slots)
    ensures { frames.new ≡ record frames.old { top = entered block values.old.values } }
{
    frames.jump(block, values);
    frames.top_mut().cells.clear();
}

/// The values in the room. What room was kept for others takes their place.
fn values_out(alloc: Global, room: &mut Room) -> Slots
    ensures { result.values ≡ room.old.values.values }
{
    let kept = mem::replace(&mut room.others, Slots::new(alloc));
    mem::replace(&mut room.values, kept)
}

impl<M: Memory, C: Determined> State<M, C> {
    /// The thread calls a function, with the values in the room.
    #[tactic(auto, using(run_state::specs::ActLaws::calling))]
    pub fn call(
        &mut self,
        code: &Checked,
        function: u32,
        room: &mut Room,
    ) -> Result<StepEnd, AllocError>
        requires left { self.old.left ≡ true }
        requires room { self.old.steps < self.old.budget }
        requires there { acting code.now self.old (acts.Calls function room.old.values.values) ≢ Stuck }
        ensures ok { IfOk result (λ end. answers end self.new ≡ acting code.now self.old (acts.Calls function room.old.values.values)) }
        ensures err { OnErr result (self.new ≡ self.old) }
        ensures stays { IfOk result (λ end. Stays end self.old self.new) }
    {
        match code.function(function).first {
            None => Ok(self.undefined(Case::NoBody)),
            Some(_) => {
                if self.call_at_once(code, function, room) {
                    Ok(StepEnd::Went(Lines::new(self.alloc)))
                } else {
                    Err(AllocError)
                }
            }
        }
    }

    /// The thread calls a function, with the values in the room, where that has a body and memory is found. Else the thread is as
    /// before; the room may have changed. It is not inlined, so that a step of another instruction does not carry its code.
    #[tactic(auto, using(run_state::specs::ActLaws::calling))]
    #[inline(never)]
    pub fn call_at_once(&mut self, code: &Checked, function: u32, room: &mut Room) -> bool
        requires left { self.old.left ≡ true }
        requires room { self.old.steps < self.old.budget }
        requires there { acting code.now self.old (acts.Calls function room.old.values.values) ≢ Stuck }
        ensures made { result ≡ true → answers (Went []) self.new ≡ acting code.now self.old (acts.Calls function room.old.values.values) }
        ensures left { result ≡ false → self.new ≡ self.old }
    {
        match code.function(function).first {
            None => false,
            Some(block) => self.enter_at_once(code, function, block, room),
        }
    }

    /// The thread calls a function with that first block, where memory is found. Else the thread is as before; the room may have
    /// changed.
    #[tactic(auto, using(run_state::specs::ActLaws::plain))]
    fn enter_at_once(&mut self, code: &Checked, function: u32, block: u32, room: &mut Room) -> bool
        requires left { self.old.left ≡ true }
        requires room { self.old.steps < self.old.budget }
        requires there { IsSome (awaited code.now self.old.frames.top function) }
        ensures made { result ≡ true → IfSome (awaited code.now self.old.frames.top function) (λ w. answers (Went []) self.new ≡ went_on (record self.old { frames = entered_above self.old.frames (entered block room.old.values.values) w })) }
        ensures left { result ≡ false → self.new ≡ self.old }
    {
        if waits_for_values(code, self.frames.top()) {
            self.enter_for_values(code, function, block, room)
        } else {
            self.enter_waiting(code, function, block, room)
        }
    }

    /// The same, where the frame that calls waits for values alone.
    fn enter_for_values(
        &mut self,
        code: &Checked,
        function: u32,
        block: u32,
        room: &mut Room,
    ) -> bool
        requires left { self.old.left ≡ true }
        requires room { self.old.steps < self.old.budget }
        ensures made { result ≡ true → answers (Went []) self.new ≡ went_on (record self.old { frames = entered_above self.old.frames (entered block room.old.values.values) (record { waits = classes_given (bundle_tables code.now) function; handler = None; kept = nothing_kept }) }) }
        ensures left { result ≡ false → self.new ≡ self.old }
    {
        let values = values_out(self.alloc, room);
        let Ok(()) = read_classes_given(code, function, &mut room.waits) else {
            return false;
        };
        let frame = entered(self.alloc, block, values);
        let Ok(()) = self.frames.enter_above(frame, &mut room.waits) else {
            return false;
        };
        self.count();
        true
    }

    /// The same, whatever it waits for.
    fn enter_waiting(&mut self, code: &Checked, function: u32, block: u32, room: &mut Room) -> bool
        requires left { self.old.left ≡ true }
        requires room { self.old.steps < self.old.budget }
        requires there { IsSome (awaited code.now self.old.frames.top function) }
        ensures made { result ≡ true → IfSome (awaited code.now self.old.frames.top function) (λ w. answers (Went []) self.new ≡ went_on (record self.old { frames = entered_above self.old.frames (entered block room.old.values.values) w })) }
        ensures left { result ≡ false → self.new ≡ self.old }
    {
        let top = self.frames.top();
        let Ok(mut waiting) = waiting(self.alloc, code, top, function, &mut room.waits) else {
            return false;
        };
        let values = values_out(self.alloc, room);
        let frame = entered(self.alloc, block, values);
        if enter(&mut self.frames, frame, &mut waiting).is_err() {
            return false;
        }
        waiting.leave_room(&mut room.waits);
        self.count();
        true
    }

    /// The thread calls a function in place of its top frame.
    #[tactic(auto, using(run_state::specs::ActLaws::replacing))]
    pub fn call_in_place(&mut self, code: &Checked, function: u32, values: &mut Slots) -> StepEnd
        requires left { self.old.left ≡ true }
        requires room { self.old.steps < self.old.budget }
        requires there { acting code.now self.old (acts.Replaces function values.old.values) ≢ Stuck }
        ensures on { answers result self.new ≡ acting code.now self.old (acts.Replaces function values.old.values) }
        ensures end { Stays result self.old self.new }
    {
        match code.function(function).first {
            None => self.undefined(Case::NoBody),
            Some(block) => self.replace_at(block, values),
        }
    }

    /// The top frame ends, and that of a function with that first block stands in its place.
    fn replace_at(&mut self, block: u32, values: &mut Slots) -> StepEnd
        requires left { self.old.left ≡ true }
        requires room { self.old.steps < self.old.budget }
        ensures on { answers result self.new ≡ went_on (record self.old { frames = record self.old.frames { top = entered block values.old.values }; objects = objects_end self.old.objects self.old.frames.top.objects }) }
        ensures end { (s t : Held) → Stays result s t }
    {
        end_objects(&mut self.heap, self.frames.top().cells.as_slice());
        replace_top(&mut self.frames, block, values);
        self.went()
    }
}
