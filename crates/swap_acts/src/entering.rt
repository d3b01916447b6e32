// Stacks that are left for others.
ghost use Rattle.std.specs.Prelude.{◌≡◌, ◌≢◌, ◌<◌, IsSome, IfOk, IfSome, OnErr, slice_get, true};
ghost use Rattle.mu_values.specs.declared.scalars.Scalar.TheVariants as scalars;
ghost use Rattle.mu_model.specs.Acts as acts;
ghost use Rattle.mu_model.specs.Outcomes.{Stuck};
ghost use Rattle.seats.specs.Seats.{IsReady, IsReadyFor};
ghost use Rattle.step_forms.specs.Asked.{entering_of};
ghost use Rattle.run_state.specs.Outcome.{Stays};
ghost use Rattle.run_state.specs.Acting.{answers, acting, with_awaited};
ghost use Rattle.stack_moves.specs.Entering.{entered_by, arrives, frames_at, found, swapped_with, left_dead};

use checked_code::Checked;
use client_hooks::Determined;
use mem_axioms::{Event, Kind, Memory};
use memory_acts::accessing::line_of;
use mu_model::{Case, Lines, StepEnd};
use mu_values::Scalar;
use run_state::objects::end_frames;
use run_state::waiting::{Wait, exchange_on_top, waiting_for};
use stack_moves::arriving::{Found, Landing, arrive, look};
use stack_moves::lists::Lists;
use stack_moves::moving::{
    Seat, copied, hand_back, hand_over, lines_of, log_other, log_two, switch, switch_ending,
};
use stacks::Entered;
use std::alloc::AllocError;
use step_forms::Entering;
use thread_acts::state::State;

/// The thread leaves its stack, which waits for values of the classes in the room, and enters another one. Where no memory is found the
/// state is as before; the lists may have changed.
#[tactic(auto, using(stack_moves::specs::SwapLaws::swapping))]
pub fn swap<M: Memory, C: Determined>(
    state: &mut State<M, C>,
    code: &Checked,
    stack: Scalar,
    entering: Entering,
    lists: &mut Lists,
) -> Result<StepEnd, AllocError>
    requires left { state.old.left ≡ true }
    requires room { state.old.steps < state.old.budget }
    requires there { acting code.now state.old (acts.Swaps stack lists.old.room.waits.members (entering_of entering lists.old.room.types.members lists.old.room.values.values)) ≢ Stuck }
    ensures ok { IfOk result (λ end. answers end state.new ≡ acting code.now state.old (acts.Swaps stack lists.old.room.waits.members (entering_of entering lists.old.room.types.members lists.old.room.values.values))) }
    ensures err { OnErr result (state.new ≡ state.old) }
    ensures stays { IfOk result (λ end. Stays end state.old state.new) }
{
    // Both tests come while the thread still has its stack, as a refusal is to leave all as it is.
    let Some(to) = state.ready_stack(stack) else {
        return Ok(state.undefined(Case::StackNotReady));
    };
    match look(
        &state.seats,
        to,
        code,
        entering,
        &lists.room,
        &mut lists.out,
    )? {
        Found::Refused(case) => Ok(state.undefined(case)),
        Found::Lands(arrival) => swap_to(
            state,
            code,
            Landing { stack: to, arrival },
            entering,
            lists,
        ),
    }
}

/// The same, where the other stack is ready and goes on so, with the values in the list.
fn swap_to<M: Memory, C: Determined>(
    state: &mut State<M, C>,
    code: &Checked,
    landing: Landing,
    entering: Entering,
    lists: &mut Lists,
) -> Result<StepEnd, AllocError>
    requires left { state.old.left ≡ true }
    requires room { state.old.steps < state.old.budget }
    requires other { landing.stack ≢ state.old.stack }
    requires ready { IsReady (slice_get state.old.seats.stacks landing.stack) }
    requires lands { entered_by code.now (frames_at (slice_get state.old.seats.stacks landing.stack)) (entering_of entering lists.old.room.types.members lists.old.room.values.values) ≡ found (Found.Lands landing.arrival) (frames_at (slice_get state.old.seats.stacks landing.stack)) lists.old.out.values }
    requires there { acting code.now state.old (acts.Swaps (scalars.Stack landing.stack) lists.old.room.waits.members (entering_of entering lists.old.room.types.members lists.old.room.values.values)) ≢ Stuck }
    ensures ok { IfOk result (λ end. answers end state.new ≡ acting code.now state.old (acts.Swaps (scalars.Stack landing.stack) lists.old.room.waits.members (entering_of entering lists.old.room.types.members lists.old.room.values.values))) }
    ensures err { OnErr result (state.new ≡ state.old) }
    ensures stays { IfOk result (λ end. Stays end state.old state.new) }
{
    let waits = copied(state.alloc, &lists.room.waits)?;
    let wait = waiting_for(state.alloc, code, state.frames.top(), waits)?;
    let handing = hand_over(state.alloc, entering, &mut lists.room)?;
    let leave = Event {
        thread: state.thread,
        kind: Kind::Leave { stack: state.stack },
    };
    let enter = Event {
        thread: state.thread,
        kind: Kind::Enter {
            stack: landing.stack,
        },
    };
    let lines = lines_of(state.alloc, state.events, leave, enter)?;
    move_to(state, lines, landing, wait, handing, lists)
}

/// The thread's top frame waits so, and the thread moves to another stack, which goes on so, with the values in the list. What is
/// handed to that comes back to the room. These are all lines of the step.
fn move_to<M: Memory, C: Determined>(
    state: &mut State<M, C>,
    lines: Lines,
    landing: Landing,
    mut wait: Wait,
    handing: Entered,
    lists: &mut Lists,
) -> Result<StepEnd, AllocError>
    requires left { state.old.left ≡ true }
    requires room { state.old.steps < state.old.budget }
    requires other { landing.stack ≢ state.old.stack }
    requires takes { IsReadyFor (slice_get state.old.seats.stacks landing.stack) handing }
    requires lands { IsSome (arrives landing.arrival (frames_at (slice_get state.old.seats.stacks landing.stack)) lists.old.out.values) }
    ensures ok { IfOk result (λ end. IfSome (arrives landing.arrival (frames_at (slice_get state.old.seats.stacks landing.stack)) lists.old.out.values) (λ r. answers end state.new ≡ swapped_with state.old (with_awaited state.old.frames.top wait) landing.stack r lines)) }
    ensures err { OnErr result (state.new ≡ state.old) }
    ensures stays { IfOk result (λ end. Stays end state.old state.new) }
{
    let Landing { stack: to, arrival } = landing;
    let leave = Event {
        thread: state.thread,
        kind: Kind::Leave { stack: state.stack },
    };
    let enter = Event {
        thread: state.thread,
        kind: Kind::Enter { stack: to },
    };
    let seat = Seat {
        thread: state.thread,
        stack: state.stack,
    };
    let waits = copied(state.alloc, wait.waits())?;
    state.memory.reserve(state.thread, None, 2)?;
    exchange_on_top(&mut state.frames, &mut wait);
    let passed = switch(
        &mut state.seats,
        seat,
        &mut state.frames,
        waits,
        to,
        handing,
    );
    hand_back(passed, &mut lists.room);
    arrive(&mut state.frames, &mut state.heap, arrival, &mut lists.out);
    log_two(&mut state.memory, leave, enter);
    state.stack = to;
    state.events += 2;
    state.steps += 1;
    Ok(StepEnd::Went(lines))
}

/// The thread's stack dies, and it enters another one. Where no memory is found the state is as before; the lists may have changed.
#[tactic(auto, using(stack_moves::specs::SwapLaws::leaving_stack))]
pub fn leave_stack<M: Memory, C: Determined>(
    state: &mut State<M, C>,
    code: &Checked,
    stack: Scalar,
    entering: Entering,
    lists: &mut Lists,
) -> Result<StepEnd, AllocError>
    requires left { state.old.left ≡ true }
    requires room { state.old.steps < state.old.budget }
    requires there { acting code.now state.old (acts.Leaves stack (entering_of entering lists.old.room.types.members lists.old.room.values.values)) ≢ Stuck }
    ensures ok { IfOk result (λ end. answers end state.new ≡ acting code.now state.old (acts.Leaves stack (entering_of entering lists.old.room.types.members lists.old.room.values.values))) }
    ensures err { OnErr result (state.new ≡ state.old) }
    ensures stays { IfOk result (λ end. Stays end state.old state.new) }
{
    let Some(to) = state.ready_stack(stack) else {
        return Ok(state.undefined(Case::StackNotReady));
    };
    match look(
        &state.seats,
        to,
        code,
        entering,
        &lists.room,
        &mut lists.out,
    )? {
        Found::Refused(case) => Ok(state.undefined(case)),
        Found::Lands(arrival) => leave_for(
            state,
            code,
            Landing { stack: to, arrival },
            entering,
            lists,
        ),
    }
}

/// The same, where the other stack is ready and goes on so, with the values in the list.
fn leave_for<M: Memory, C: Determined>(
    state: &mut State<M, C>,
    code: &Checked,
    landing: Landing,
    entering: Entering,
    lists: &mut Lists,
) -> Result<StepEnd, AllocError>
    requires left { state.old.left ≡ true }
    requires room { state.old.steps < state.old.budget }
    requires other { landing.stack ≢ state.old.stack }
    requires ready { IsReady (slice_get state.old.seats.stacks landing.stack) }
    requires lands { entered_by code.now (frames_at (slice_get state.old.seats.stacks landing.stack)) (entering_of entering lists.old.room.types.members lists.old.room.values.values) ≡ found (Found.Lands landing.arrival) (frames_at (slice_get state.old.seats.stacks landing.stack)) lists.old.out.values }
    requires there { acting code.now state.old (acts.Leaves (scalars.Stack landing.stack) (entering_of entering lists.old.room.types.members lists.old.room.values.values)) ≢ Stuck }
    ensures ok { IfOk result (λ end. answers end state.new ≡ acting code.now state.old (acts.Leaves (scalars.Stack landing.stack) (entering_of entering lists.old.room.types.members lists.old.room.values.values))) }
    ensures err { OnErr result (state.new ≡ state.old) }
    ensures stays { IfOk result (λ end. Stays end state.old state.new) }
{
    let handing = hand_over(state.alloc, entering, &mut lists.room)?;
    die_to(state, landing, handing, lists)
}

/// The thread's stack dies, and the thread moves to another one, which goes on so, with the values in the list. What is handed to
/// that comes back to the room.
fn die_to<M: Memory, C: Determined>(
    state: &mut State<M, C>,
    landing: Landing,
    handing: Entered,
    lists: &mut Lists,
) -> Result<StepEnd, AllocError>
    requires left { state.old.left ≡ true }
    requires room { state.old.steps < state.old.budget }
    requires other { landing.stack ≢ state.old.stack }
    requires takes { IsReadyFor (slice_get state.old.seats.stacks landing.stack) handing }
    requires lands { IsSome (arrives landing.arrival (frames_at (slice_get state.old.seats.stacks landing.stack)) lists.old.out.values) }
    ensures ok { IfOk result (λ end. IfSome (arrives landing.arrival (frames_at (slice_get state.old.seats.stacks landing.stack)) lists.old.out.values) (λ r. answers end state.new ≡ left_dead state.old landing.stack r)) }
    ensures err { OnErr result (state.new ≡ state.old) }
    ensures stays { IfOk result (λ end. Stays end state.old state.new) }
{
    let Landing { stack: to, arrival } = landing;
    let enter = Event {
        thread: state.thread,
        kind: Kind::Enter { stack: to },
    };
    let seat = Seat {
        thread: state.thread,
        stack: state.stack,
    };
    let lines = line_of(state.alloc, state.events, enter)?;
    state.memory.reserve(state.thread, None, 1)?;
    let (ended, passed) = switch_ending(&mut state.seats, seat, &mut state.frames, to, handing);
    hand_back(passed, &mut lists.room);
    end_frames(&ended, &mut state.heap);
    arrive(&mut state.frames, &mut state.heap, arrival, &mut lists.out);
    log_other(&mut state.memory, enter);
    state.stack = to;
    state.events += 1;
    state.steps += 1;
    Ok(StepEnd::Went(lines))
}
