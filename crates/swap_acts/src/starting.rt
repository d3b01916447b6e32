// Threads that are started.
ghost use Rattle.std.specs.Prelude.{◌≡◌, ◌≢◌, ◌<◌, [], ◌∷◌, IsSome, IfOk, IfSome, OnErr, length, nat_lt, slice_get, true, Some};
ghost use Rattle.mu_values.specs.declared.scalars.Scalar.TheVariants as scalars;
ghost use Rattle.mu_model.specs.Acts as acts;
ghost use Rattle.mu_model.specs.Outcomes.{Stuck};
ghost use Rattle.seats.specs.Seats.{IsReady, IsReadyFor, IsOn};
ghost use Rattle.step_forms.specs.Asked.{entering_of};
ghost use Rattle.run_state.specs.Outcome.{Stays};
ghost use Rattle.run_state.specs.Acting.{answers, acting, goes_on};
ghost use Rattle.stack_moves.specs.Entering.{entered_by, arrives, frames_at, found, begins, IsStarted};
ghost use Rattle.frames.specs.Chains.{frames_in};
ghost use Rattle.mu_model.specs.Configuration.{Ready, Active};

use checked_code::Checked;
use client_hooks::Determined;
use frames::Frames;
use mem_axioms::{Event, Kind, Memory};
use mu_model::{Case, Ending, StepEnd};
use mu_values::{Scalar, Slots};
use run_state::flow::go_on;
use seats::Seats;
use stack_moves::arriving::{Found, Landing, arrive, look};
use stack_moves::lists::Lists;
use stack_moves::moving::{Seat, hand_back, hand_over, lines_of, log_two};
use stacks::Entered;
use std::alloc::{AllocError, Global};
use step_forms::Entering;
use thread_acts::state::State;

/// A list of one value of one scalar.
fn one(alloc: Global, scalar: Scalar) -> Result<Slots, AllocError>
    ensures { IfOk result (λ values. values.values ≡ (scalar ∷ []) ∷ []) }
{
    let mut values = Slots::new(alloc);
    values.push_scalar(scalar)?;
    Ok(values)
}

/// The thread starts another one, on a stack that it enters, and with this own object. Where no memory is found the state is as before; the
/// lists may have changed.
#[tactic(auto, using(crate::specs::StartLaws::starting))]
pub fn start_thread<M: Memory, C: Determined>(
    state: &mut State<M, C>,
    code: &Checked,
    stack: Scalar,
    own: Scalar,
    entering: Entering,
    lists: &mut Lists,
) -> Result<StepEnd, AllocError>
    requires left { state.old.left ≡ true }
    requires room { state.old.steps < state.old.budget }
    requires there { acting code.now state.old (acts.Starts stack own (entering_of entering lists.old.room.types.members lists.old.room.values.values)) ≢ Stuck }
    ensures ok { IfOk result (λ end. answers end state.new ≡ acting code.now state.old (acts.Starts stack own (entering_of entering lists.old.room.types.members lists.old.room.values.values))) }
    ensures err { OnErr result (state.new ≡ state.old) }
    ensures stays { IfOk result (λ end. Stays end state.old state.new) }
{
    if !state.seats.has_room() {
        let thread = state.thread;
        return state.fault(code, Ending::ThreadsFull { thread }, &mut lists.out);
    }
    start_one(state, code, stack, own, entering, lists)
}

/// The same, where there is room for one more.
#[tactic(auto, using(crate::specs::StartLaws::starting))]
fn start_one<M: Memory, C: Determined>(
    state: &mut State<M, C>,
    code: &Checked,
    stack: Scalar,
    own: Scalar,
    entering: Entering,
    lists: &mut Lists,
) -> Result<StepEnd, AllocError>
    requires left { state.old.left ≡ true }
    requires room { state.old.steps < state.old.budget }
    requires few { nat_lt (length state.old.seats.threads) 64 ≡ true }
    requires there { acting code.now state.old (acts.Starts stack own (entering_of entering lists.old.room.types.members lists.old.room.values.values)) ≢ Stuck }
    ensures ok { IfOk result (λ end. answers end state.new ≡ acting code.now state.old (acts.Starts stack own (entering_of entering lists.old.room.types.members lists.old.room.values.values))) }
    ensures err { OnErr result (state.new ≡ state.old) }
    ensures stays { IfOk result (λ end. Stays end state.old state.new) }
{
    let Some(to) = state.ready_stack(stack) else {
        return Ok(state.undefined(Case::StackNotReady));
    };
    match look(
        &state.seats,
        to,
        code,
        entering,
        &lists.room,
        &mut lists.out,
    )? {
        Found::Refused(case) => Ok(state.undefined(case)),
        Found::Lands(arrival) => {
            let landing = Landing { stack: to, arrival };
            start_on(state, code, landing, own, entering, lists)
        }
    }
}

/// The thread starts the next one on another stack that is ready and goes on so, with the values in the list.
fn start_on<M: Memory, C: Determined>(
    state: &mut State<M, C>,
    code: &Checked,
    landing: Landing,
    own: Scalar,
    entering: Entering,
    lists: &mut Lists,
) -> Result<StepEnd, AllocError>
    requires left { state.old.left ≡ true }
    requires room { state.old.steps < state.old.budget }
    requires few { length state.old.seats.threads < 64 }
    requires other { landing.stack ≢ state.old.stack }
    requires ready { IsReady (slice_get state.old.seats.stacks landing.stack) }
    requires lands { entered_by code.now (frames_at (slice_get state.old.seats.stacks landing.stack)) (entering_of entering lists.old.room.types.members lists.old.room.values.values) ≡ found (Found.Lands landing.arrival) (frames_at (slice_get state.old.seats.stacks landing.stack)) lists.old.out.values }
    requires there { acting code.now state.old (acts.Starts (scalars.Stack landing.stack) own (entering_of entering lists.old.room.types.members lists.old.room.values.values)) ≢ Stuck }
    ensures ok { IfOk result (λ end. answers end state.new ≡ acting code.now state.old (acts.Starts (scalars.Stack landing.stack) own (entering_of entering lists.old.room.types.members lists.old.room.values.values))) }
    ensures err { OnErr result (state.new ≡ state.old) }
    ensures stays { IfOk result (λ end. Stays end state.old state.new) }
{
    let handing = hand_over(state.alloc, entering, &mut lists.room)?;
    let number = state.seats.made();
    let results = one(state.alloc, Scalar::Thread(number))?;
    begin(state, code, landing, own, &results, handing, lists)
}

/// The same, where the thread goes on with these results of its instruction.
fn begin<M: Memory, C: Determined>(
    state: &mut State<M, C>,
    code: &Checked,
    landing: Landing,
    own: Scalar,
    results: &Slots,
    handing: Entered,
    lists: &mut Lists,
) -> Result<StepEnd, AllocError>
    requires left { state.old.left ≡ true }
    requires room { state.old.steps < state.old.budget }
    requires few { length state.old.seats.threads < 64 }
    requires other { landing.stack ≢ state.old.stack }
    requires takes { IsReadyFor (slice_get state.old.seats.stacks landing.stack) handing }
    requires lands { IsSome (arrives landing.arrival (frames_at (slice_get state.old.seats.stacks landing.stack)) lists.old.out.values) }
    requires there { IsSome (goes_on code.now state.old.frames.top results.now.values) }
    ensures ok { IfOk result (λ end. IfSome (arrives landing.arrival (frames_at (slice_get state.old.seats.stacks landing.stack)) lists.old.out.values) (λ r. IfSome (goes_on code.now state.old.frames.top results.now.values) (λ f. answers end state.new ≡ begins state.old own landing.stack r f))) }
    ensures err { OnErr result (state.new ≡ state.old) }
    ensures stays { IfOk result (λ end. Stays end state.old state.new) }
{
    let Landing { stack: to, arrival } = landing;
    let number = state.seats.made();
    let made = Event {
        thread: state.thread,
        kind: Kind::NewThread { child: number },
    };
    let enter = Event {
        thread: number,
        kind: Kind::Enter { stack: to },
    };
    let seat = Seat {
        thread: state.thread,
        stack: state.stack,
    };
    let lines = lines_of(state.alloc, state.events, made, enter)?;
    state.memory.reserve(state.thread, None, 2)?;
    go_on(code, &mut state.frames, results, &mut lists.room.others)?;
    let passed = switch_starting(&mut state.seats, seat, &mut state.frames, own, to, handing);
    hand_back(passed, &mut lists.room);
    arrive(&mut state.frames, &mut state.heap, arrival, &mut lists.out);
    log_two(&mut state.memory, made, enter);
    state.thread = number;
    state.stack = to;
    state.events += 2;
    state.steps += 1;
    Ok(StepEnd::Went(lines))
}

/// The thread puts its frames back, the next thread is started on another stack, and the frames of that are taken up. What was
/// handed to it comes back.
#[tactic(auto, using(stack_moves::specs::EnteringLaws::moving))]
fn switch_starting(
    seats: &mut Seats,
    seat: Seat,
    frames: &mut Frames,
    own: Scalar,
    to: u32,
    with_: Entered,
) -> Entered
    requires on { IsOn seats.old seat.thread seat.stack }
    requires few { length seats.old.threads < 64 }
    requires other { to ≢ seat.stack }
    requires takes { IsReadyFor (slice_get seats.old.stacks to) with_ }
    ensures passed { result ≡ with_ }
    ensures frames { slice_get seats.old.stacks to ≡ Some (Ready (frames_in frames.new)) }
    ensures started { IsStarted seats.old seats.new seat.stack to own (Active seat.thread (frames_in frames.old)) }
{
    let number = seats.made();
    seats.exchange(seat.thread, seat.stack, frames);
    let passed = seats.start(to, own, with_);
    seats.exchange(number, to, frames);
    passed
}
