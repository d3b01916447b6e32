// What comes of the client's reply: the thread ends, or its own stack or another one is entered.
ghost use Rattle.std.specs.Prelude.{◌≡◌, ◌≢◌, ◌<◌, ◌++◌, ◌∷◌, [], IfOk, IfSome, IsSome, OnErr, slice_get, true, false};
ghost use Rattle.mu_values.specs.declared.scalars.Scalar.TheVariants as scalars;
ghost use Rattle.frames.specs.Chains.{frames_of};
ghost use Rattle.mu_model.specs.declared.lines.Line.TheVariants as written;
ghost use Rattle.mu_model.specs.Clients as clients;
ghost use Rattle.mu_model.specs.Outcomes.{Stuck};
ghost use Rattle.client_hooks.specs.Plans.{end_planned};
ghost use Rattle.client_hooks.specs.Replies.{classed, edit_of, way_of};
ghost use Rattle.step_forms.specs.Asked.{entering_of};
ghost use Rattle.seats.specs.Seats.{IsReady};
ghost use Rattle.run_state.specs.Outcome.{Stays};
ghost use Rattle.run_state.specs.Acting.{answers};
ghost use Rattle.stack_moves.specs.Editing.{IsMade, after_edit};
ghost use Rattle.stack_moves.specs.Entering.{entered_by, arrives, frames_at, found, IsPlain};
ghost use Rattle.trap_acts.specs.Trapping.{waiting_frames, replying, past, entering_then, change_by, left_by, IsEdited};

use crate::editing::{wait_and_edit, waits_after};
use checked_code::Checked;
use client_hooks::{ClassedValue, Determined, Edit, End, Watches, With};
use mem_axioms::{Event, Kind, Memory};
use mu_model::{Case, Ending, Line, Lines, Note, StepEnd};
use mu_values::{Scalar, Slots};
use run_state::waiting::{Wait, exchange_on_top};
use stack_moves::arriving::{Arrival, Found, Landing, arrive, look, prepare};
use stack_moves::edited::Edited;
use stack_moves::lists::Lists;
use stack_moves::moving::{Seat, hand_back, hand_over, log_other, log_two, switch};
use std::alloc::AllocError;
use step_forms::{Entering, Room};
use thread_acts::state::State;
use trap_answers::{bring, target};

/// A trap whose answer is taken: how the thread's top frame waits, how the frames are edited after that, which watchpoints are enabled
/// or disabled, and the lines of the step so far.
#[derive(Drop)]
pub(crate) struct Trapped {
    pub(crate) wait: Wait,
    pub(crate) edit: Edit,
    pub(crate) watches: Watches,
    pub(crate) lines: Lines,
}

/// Whether a scalar is a reference to the stack with that number.
fn names(scalar: Scalar, stack: u32) -> bool
    ensures yes { result ≡ true → scalar ≡ scalars.Stack stack }
    ensures no { result ≡ false → scalar ≢ scalars.Stack stack }
{
    match scalar {
        Scalar::Stack(number) => number == stack,
        _ => false,
    }
}

/// The reply of an answer, whose edit is not refused.
#[tactic(auto, using(crate::specs::TrapLaws::reply_stops))]
pub(crate) fn reply<M: Memory, C: Determined>(
    state: &mut State<M, C>,
    code: &Checked,
    end: End,
    trapped: Trapped,
    lists: &mut Lists,
) -> Result<StepEnd, AllocError>
    requires left { state.old.left ≡ true }
    requires room { state.old.steps < state.old.budget }
    requires edited { IsEdited code.now state.old trapped }
    requires there { replying code.now state.old (left_by code.now state.old trapped) (change_by state.old trapped) (end_planned end) ≢ Stuck }
    ensures ok { IfOk result (λ e. answers e state.new ≡ past C.way state.old (replying code.now state.old (left_by code.now state.old trapped) (change_by state.old trapped) (end_planned end))) }
    ensures err { OnErr result (state.new ≡ state.old) }
    ensures stays { IfOk result (λ end. Stays end state.old state.new) }
{
    match end {
        End::Stop => Ok(StepEnd::Ended(trapped.lines, Ending::Stop)),
        End::Exit => exit_ready(state, code, trapped),
        End::Resume(with) => resume(state, code, with, trapped, lists),
        End::Rebind { target, with } => rebind(state, code, target, with, trapped, lists),
    }
}

/// The thread ends, and its stack stays ready.
fn exit_ready<M: Memory, C: Determined>(
    state: &mut State<M, C>,
    code: &Checked,
    mut trapped: Trapped,
) -> Result<StepEnd, AllocError>
    requires left { state.old.left ≡ true }
    requires room { state.old.steps < state.old.budget }
    requires edited { IsEdited code.now state.old trapped }
    requires there { replying code.now state.old (left_by code.now state.old trapped) (change_by state.old trapped) clients.Exit ≢ Stuck }
    ensures ok { IfOk result (λ end. answers end state.new ≡ past C.way state.old (replying code.now state.old (left_by code.now state.old trapped) (change_by state.old trapped) clients.Exit)) }
    ensures err { OnErr result (state.new ≡ state.old) }
    ensures stays { IfOk result (λ end. Stays end state.old state.new) }
{
    let thread = state.thread;
    let seat = Seat {
        thread,
        stack: state.stack,
    };
    let waits = waits_after(
        state.alloc,
        code,
        &mut state.frames,
        trapped.edit,
        &mut trapped.wait,
    )?;
    let mut lines = trapped.lines;
    lines.push(Line::Note(Note::Exited { thread }))?;
    state.memory.reserve(thread, None, 1)?;
    state.watched.reserve(&trapped.watches)?;
    let leave = Event {
        thread: state.thread,
        kind: Kind::Leave { stack: state.stack },
    };
    wait_and_edit(
        state.alloc,
        code,
        seat,
        &mut state.seats,
        &mut state.frames,
        &mut state.heap,
        trapped.edit,
        &mut trapped.wait,
    )?;
    state.seats.exchange(thread, state.stack, &mut state.frames);
    state.seats.exit(thread, state.stack, waits);
    state.left = false;
    log_other(&mut state.memory, leave);
    state.watched.apply(&trapped.watches);
    state.client.advance();
    state.events += 1;
    state.steps += 1;
    Ok(StepEnd::Went(lines))
}

/// The trapped stack is entered again.
#[tactic(auto, using(crate::specs::TrapLaws::resuming))]
fn resume<M: Memory, C: Determined>(
    state: &mut State<M, C>,
    code: &Checked,
    with: With,
    mut trapped: Trapped,
    lists: &mut Lists,
) -> Result<StepEnd, AllocError>
    requires left { state.old.left ≡ true }
    requires room { state.old.steps < state.old.budget }
    requires edited { IsEdited code.now state.old trapped }
    requires there { replying code.now state.old (left_by code.now state.old trapped) (change_by state.old trapped) (clients.Resume (way_of with)) ≢ Stuck }
    ensures ok { IfOk result (λ end. answers end state.new ≡ past C.way state.old (replying code.now state.old (left_by code.now state.old trapped) (change_by state.old trapped) (clients.Resume (way_of with)))) }
    ensures err { OnErr result (state.new ≡ state.old) }
    ensures stays { IfOk result (λ end. Stays end state.old state.new) }
{
    // The thread in hand is on its stack.
    let _ = &state.thread;
    let entering = bring(code, with, &mut lists.room);
    match look_back(
        state,
        code,
        entering,
        trapped.edit,
        &mut trapped.wait,
        &lists.room,
        &mut lists.out,
    )? {
        Found::Refused(case) => Ok(StepEnd::Ended(trapped.lines, state.case_ending(case))),
        Found::Lands(arrival) => resume_at(state, code, arrival, trapped, &mut lists.out),
    }
}

/// Where the thread's own stack goes on after an edit that is entered with what stands in the room, or why it does not, where its top
/// frame waits so before. Nothing changes.
fn look_back<M: Memory, C: Determined>(
    state: &mut State<M, C>,
    code: &Checked,
    entering: Entering,
    edit: Edit,
    wait: &mut Wait,
    room: &Room,
    out: &mut Slots,
) -> Result<Found, AllocError>
    requires edited { IsMade code.now (edit_of edit) (frames_of (waiting_frames state.old wait.old)) }
    requires there { IsSome (entered_by code.now (after_edit code.now (edit_of edit) (frames_of (waiting_frames state.old wait.old))).frames (entering_of entering room.now.types.members room.now.values.values)) }
    ensures is { IfOk result (λ r. entered_by code.now (after_edit code.now (edit_of edit) (frames_of (waiting_frames state.old wait.old))).frames (entering_of entering room.now.types.members room.now.values.values) ≡ found r (after_edit code.now (edit_of edit) (frames_of (waiting_frames state.old wait.old))).frames out.new.values) }
    ensures plain { IfOk result IsPlain }
    ensures same { state.new ≡ state.old }
    ensures wait { wait.new ≡ wait.old }
{
    exchange_on_top(&mut state.frames, wait);
    let edited = Edited::after(code, &state.frames, edit);
    let found = prepare(code, &edited, entering, room, out);
    exchange_on_top(&mut state.frames, wait);
    found
}

/// The thread's own stack goes on so, with the values in the list.
fn resume_at<M: Memory, C: Determined>(
    state: &mut State<M, C>,
    code: &Checked,
    arrival: Arrival,
    mut trapped: Trapped,
    out: &mut Slots,
) -> Result<StepEnd, AllocError>
    requires left { state.old.left ≡ true }
    requires room { state.old.steps < state.old.budget }
    requires edited { IsEdited code.now state.old trapped }
    requires lands { IsSome (arrives arrival (left_by code.now state.old trapped).frames out.old.values) }
    ensures ok { IfOk result (λ end. IfSome (arrives arrival (left_by code.now state.old trapped).frames out.old.values) (λ r. answers end state.new ≡ past C.way state.old (entering_then state.old (left_by code.now state.old trapped) (change_by state.old trapped) state.old.stack r))) }
    ensures err { OnErr result (state.new ≡ state.old) }
    ensures stays { IfOk result (λ end. Stays end state.old state.new) }
{
    let leave = Event {
        thread: state.thread,
        kind: Kind::Leave { stack: state.stack },
    };
    let enter = Event {
        thread: state.thread,
        kind: Kind::Enter { stack: state.stack },
    };
    let mut lines = trapped.lines;
    lines.push(Line::Event {
        number: state.events + 1,
        event: enter,
    })?;
    state.memory.reserve(state.thread, None, 2)?;
    state.watched.reserve(&trapped.watches)?;
    let seat = Seat {
        thread: state.thread,
        stack: state.stack,
    };
    wait_and_edit(
        state.alloc,
        code,
        seat,
        &mut state.seats,
        &mut state.frames,
        &mut state.heap,
        trapped.edit,
        &mut trapped.wait,
    )?;
    arrive(&mut state.frames, &mut state.heap, arrival, out);
    log_two(&mut state.memory, leave, enter);
    state.watched.apply(&trapped.watches);
    state.client.advance();
    state.events += 2;
    state.steps += 1;
    Ok(StepEnd::Went(lines))
}

/// A stack is entered that a value names. It may be the trapped one.
#[tactic(auto, using(crate::specs::TrapLaws::rebinding))]
fn rebind<M: Memory, C: Determined>(
    state: &mut State<M, C>,
    code: &Checked,
    stack: ClassedValue,
    with: With,
    trapped: Trapped,
    lists: &mut Lists,
) -> Result<StepEnd, AllocError>
    requires left { state.old.left ≡ true }
    requires room { state.old.steps < state.old.budget }
    requires edited { IsEdited code.now state.old trapped }
    requires there { replying code.now state.old (left_by code.now state.old trapped) (change_by state.old trapped) (clients.Rebind (classed stack) (way_of with)) ≢ Stuck }
    ensures ok { IfOk result (λ end. answers end state.new ≡ past C.way state.old (replying code.now state.old (left_by code.now state.old trapped) (change_by state.old trapped) (clients.Rebind (classed stack) (way_of with)))) }
    ensures err { OnErr result (state.new ≡ state.old) }
    ensures stays { IfOk result (λ end. Stays end state.old state.new) }
{
    let scalar = target(&stack);
    if names(scalar, state.stack) {
        return resume(state, code, with, trapped, lists);
    }
    let entering = bring(code, with, &mut lists.room);
    let Some(to) = state.ready_stack(scalar) else {
        let ending = state.case_ending(Case::StackNotReady);
        return Ok(StepEnd::Ended(trapped.lines, ending));
    };
    match look(
        &state.seats,
        to,
        code,
        entering,
        &lists.room,
        &mut lists.out,
    )? {
        Found::Refused(case) => Ok(StepEnd::Ended(trapped.lines, state.case_ending(case))),
        Found::Lands(arrival) => {
            let landing = Landing { stack: to, arrival };
            rebind_to(state, code, landing, entering, trapped, lists)
        }
    }
}

/// The lines with that of an event behind them. It is refused only when out of memory; then the lines are dropped.
fn with_event(mut lines: Lines, number: u32, event: Event) -> Result<Lines, AllocError>
    ensures { IfOk result (λ more. more ≡ lines ++ written.Event number event ∷ []) }
{
    lines.push(Line::Event { number, event })?;
    Ok(lines)
}

/// The same, where another stack is ready and goes on so, with the values in the list.
fn rebind_to<M: Memory, C: Determined>(
    state: &mut State<M, C>,
    code: &Checked,
    landing: Landing,
    entering: Entering,
    mut trapped: Trapped,
    lists: &mut Lists,
) -> Result<StepEnd, AllocError>
    requires left { state.old.left ≡ true }
    requires room { state.old.steps < state.old.budget }
    requires edited { IsEdited code.now state.old trapped }
    requires other { landing.stack ≢ state.old.stack }
    requires lands { entered_by code.now (frames_at (slice_get state.old.seats.stacks landing.stack)) (entering_of entering lists.old.room.types.members lists.old.room.values.values) ≡ found (Found.Lands landing.arrival) (frames_at (slice_get state.old.seats.stacks landing.stack)) lists.old.out.values }
    requires ready { IsReady (slice_get state.old.seats.stacks landing.stack) }
    requires there { IsSome (entered_by code.now (frames_at (slice_get state.old.seats.stacks landing.stack)) (entering_of entering lists.old.room.types.members lists.old.room.values.values)) }
    ensures ok { IfOk result (λ end. IfSome (arrives landing.arrival (frames_at (slice_get state.old.seats.stacks landing.stack)) lists.old.out.values) (λ r. answers end state.new ≡ past C.way state.old (entering_then state.old (left_by code.now state.old trapped) (change_by state.old trapped) landing.stack r))) }
    ensures err { OnErr result (state.new ≡ state.old) }
    ensures stays { IfOk result (λ end. Stays end state.old state.new) }
{
    let handing = hand_over(state.alloc, entering, &mut lists.room)?;
    let Landing { stack: to, arrival } = landing;
    let thread = state.thread;
    let kind = Kind::Enter { stack: to };
    let enter = Event { thread, kind };
    let lines = with_event(trapped.lines, state.events + 1, enter)?;
    let stack = state.stack;
    let kind = Kind::Leave { stack };
    let leave = Event { thread, kind };
    let own = Seat { thread, stack };
    let waits = waits_after(
        state.alloc,
        code,
        &mut state.frames,
        trapped.edit,
        &mut trapped.wait,
    )?;
    state.memory.reserve(thread, None, 2)?;
    state.watched.reserve(&trapped.watches)?;
    wait_and_edit(
        state.alloc,
        code,
        own,
        &mut state.seats,
        &mut state.frames,
        &mut state.heap,
        trapped.edit,
        &mut trapped.wait,
    )?;
    let passed = switch(&mut state.seats, own, &mut state.frames, waits, to, handing);
    hand_back(passed, &mut lists.room);
    arrive(&mut state.frames, &mut state.heap, arrival, &mut lists.out);
    log_two(&mut state.memory, leave, enter);
    state.watched.apply(&trapped.watches);
    state.client.advance();
    state.stack = to;
    state.events += 2;
    state.steps += 1;
    Ok(StepEnd::Went(lines))
}
