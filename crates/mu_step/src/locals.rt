// Local steps, which no other thread can see.
ghost use Rattle.std.specs.Prelude.{◌≡◌, ◌≢◌, ◌<◌, true, IfOk, IsSomeAnd, length, slice_get};
ghost use Rattle.mu_model.specs.Acts.{Doing};
ghost use Rattle.mu_model.specs.Outcomes.{Stuck};
ghost use Rattle.model_numbers.specs.Numbered.{numbered};
ghost use Rattle.local_steps.specs.IsLocal.{is_local, is_local_act};
ghost use Rattle.seats.specs.Seats.{runnable_of};
ghost use Rattle.step_forms.specs.Asked.{asked, lists_of};
ghost use Rattle.run_state.specs.Held.{configuration};
ghost use Rattle.run_state.specs.Hand.{IsSound};
ghost use Rattle.run_state.specs.Acting.{acting, stepping, told, turn};
ghost use Rattle.mu_step.specs.LeastLocal.{IsLeastAt};
ghost use Rattle.mu_step.specs.Locals.{stepping_local, AllHaveRules};

use crate::acts::asks;
use crate::step::take_up;
use checked_code::Checked;
use client_hooks::Determined;
use mem_axioms::Memory;
use std::alloc::AllocError;
use step_forms::{Act, Room};
use thread_acts::state::State;

/// Whether an act of the thread in hand, whose values and classes stand in the room, is local: it gives values, goes to a block, calls a
/// function that has a body, or returns from a frame without objects.
#[tactic(auto, using(run_state::specs::ActLaws::calling))]
fn is_local_act<M: Memory, C: Determined>(
    state: &State<M, C>,
    code: &Checked,
    act: Act,
    room: &Room,
) -> bool
    requires there { acting code.now state.now (asked act (lists_of room.now)) ≢ Stuck }
    ensures { (d : Doing) → result ≡ is_local_act (numbered code.now) (turn state.now d) (asked act (lists_of room.now)) }
{
    match act {
        Act::Gives(_) | Act::GivesValues | Act::Goes { .. } => true,
        Act::Calls { function } => code.function(function).first.is_some(),
        Act::Returns => state.frames.top().cells.len() == 0,
        _ => false,
    }
}

/// Whether the step of the thread in hand is local. A thread that waits makes no such step.
#[tactic(auto, using(run_state::specs::Hand::waiting_hand, run_state::specs::Hand::told_there))]
fn is_local_turn<M: Memory, C: Determined>(
    state: &State<M, C>,
    code: &Checked,
    room: &mut Room,
) -> Result<bool, AllocError>
    requires left { state.now.left ≡ true }
    requires there { told C.way code.now state.now.client (stepping code.now state.now) ≢ Stuck }
    ensures { IfOk result (λ is. is ≡ stepping_local code.now state.now) }
{
    match state.seats.waiting(state.thread) {
        Some(_cell) => Ok(false),
        None => {
            let act = asks(state, code, room)?;
            Ok(is_local_act(state, code, act, room))
        }
    }
}

/// The thread in hand stands on its stack, where there is one.
fn stands<M: Memory, C: Determined>(state: &State<M, C>)
    ensures { IsSound state.now.left state.now.thread state.now.stack state.now.seats state.now.log }
{
    let _left = state.left;
}

/// Whether the next step of the thread at this place among the runnable ones is local. The configuration stays.
#[tactic(auto, using(run_state::specs::Hand::runnable_there))]
fn is_local_at<M: Memory, C: Determined>(
    state: &mut State<M, C>,
    code: &Checked,
    place: u32,
    room: &mut Room,
) -> Result<bool, AllocError>
    requires place { place < length (runnable_of state.old.seats) }
    requires room { state.old.steps < state.old.budget }
    requires whole { state.old.skip ≡ 0 }
    requires rules { AllHaveRules C.way code.now (configuration state.old) }
    ensures local { IfOk result (λ is. IsSomeAnd (slice_get (runnable_of state.old.seats) place) (λ i. is ≡ is_local (numbered code.now) (configuration state.old) i)) }
    ensures same { configuration state.new ≡ configuration state.old }
    ensures whole { state.new.skip ≡ 0 }
{
    let thread = state.seats.nth_runnable(place);
    take_up(state, thread);
    stands(state);
    is_local_turn(state, code, room)
}

/// The place, among the runnable threads, of the least one whose next step is local; None where there is none. The configuration stays.
pub(crate) fn least_local<M: Memory, C: Determined>(
    state: &mut State<M, C>,
    code: &Checked,
    room: &mut Room,
) -> Result<Option<u32>, AllocError>
    requires whole { state.old.skip ≡ 0 }
    requires rules { AllHaveRules C.way code.now (configuration state.old) }
    ensures least { IfOk result (IsLeastAt (numbered code.now) (configuration state.old)) }
    ensures same { configuration state.new ≡ configuration state.old }
    ensures whole { state.new.skip ≡ 0 }
{
    if state.steps == state.budget {
        return Ok(None);
    }
    let many = state.seats.runnable();
    let mut place = 0;
    'places: while place < many {
        if is_local_at(state, code, place, room)? {
            return Ok(Some(place));
        }
        place += 1;
    }
    Ok(None)
}
