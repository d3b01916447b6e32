// Wakes.
ghost use Rattle.std.specs.Prelude.{◌≡◌, ◌≢◌, ◌+◌, ◌-◌, ◌<◌, ◌≤◌, List, [], ◌∷◌, ◌++◌, IsSome, IsSomeAnd, IfSome, Some, IfOk, OnOk, OnErr, length, slice_set, true, false};
ghost use Rattle.frames.specs.Activations.{Activation};
ghost use Rattle.frames.specs.Chains.{chain_of};
ghost use Rattle.frames.specs.FrameOf.{frame_of};
ghost use Rattle.mem_axioms.specs.Objects.{HasCell};
ghost use Rattle.mem_axioms.specs.EventFits.{is_thread, wakes_at};
ghost use Rattle.mu_model.specs.declared.lines.Line.TheVariants as written;
ghost use Rattle.mu_model.specs.Configuration.{Active};
ghost use Rattle.seats.specs.Seats.{IsOn};
ghost use Rattle.mu_model.specs.Acts as acts;
ghost use Rattle.mu_model.specs.Outcomes.{Stuck};
ghost use Rattle.mu_model.specs.Waiting.{was_woken};
ghost use Rattle.run_state.specs.Outcome.{Stays};
ghost use Rattle.run_state.specs.Acting.{answers, acting, goes_on};
ghost use Rattle.run_state.specs.Remembering.{initials};
ghost use Rattle.run_state.specs.StepLaws.{GoesOn};
ghost use Rattle.wake_acts.specs.WakeLaws.{waking_at};
ghost use Rattle.wake_acts.specs.Waking.{frames_at, behind, stood, with_vars, vars_of, emptied, finished, undone, IsHeld, HasRoomForOne, goes_behind, all_go, AreDistinct, AreThreads, wake_event, woken_event, logs_woken, woken_lines};

use checked_code::Checked;
use client_hooks::Determined;
use frames::{Frame, Frames};
use mem_axioms::{Event, Kind, Memory};
use memory_acts::futexes::tell;
use mu_model::{Line, Lines, StepEnd};
use mu_values::{CellId, Scalar, Slots};
use object_acts::finding::case_of;
use run_state::flow::{Place, go_on, next_place, passing, stand};
use seats::Seats;
use stack_moves::moving::log_other;
use std::alloc::{AllocError, Global};
use std::mem;
use thread_acts::state::State;
use typed_heap::what_is_found_fits;

/// How the top frame of a thread goes on that is woken.
#[derive(Drop)]
struct Onward {
    /// The stack of the thread.
    stack: u32,
    /// Where the frame stands then.
    place: Place,
    /// Whether these are the variables that the frame has had, after which the result comes; else they are all that it has then.
    taken: bool,
    /// Its variables.
    variables: Slots,
}

/// A frame and a list exchange the values of the frame's variables.
fn exchange_slots(frame: &mut Frame, variables: &mut Slots)
    ensures frame { frame_of frame.new ≡ record (frame_of frame.old) { vars = variables.old.values } }
    ensures variables { variables.new.values ≡ frame.old.slots.values }
{
    mem::swap(&mut frame.slots, variables);
}

/// The same of the top frame.
fn exchange_on_top(frames: &mut Frames, variables: &mut Slots)
    ensures frames { frames.new ≡ record frames.old { top = record frames.old.top { vars = variables.old.values } } }
    ensures variables { variables.new.values ≡ frames.old.top.vars }
{
    exchange_slots(frames.top_mut(), variables);
}

/// The same of the top frame of a thread that is not in hand.
fn exchange_variables(
    seats: &mut Seats,
    frames: &mut Frames,
    thread: u32,
    stack: u32,
    variables: &mut Slots,
)
    requires { IsOn seats.old thread stack }
    ensures seats { IsSomeAnd (frames_at seats.old.threads seats.old.stacks thread) (λ at. seats.new ≡ record seats.old { stacks = slice_set seats.old.stacks stack (Active thread (with_vars variables.old.values at.1)) }) }
    ensures variables { IsSomeAnd (frames_at seats.old.threads seats.old.stacks thread) (λ at. (at.0 ≡ stack) × (variables.new.values ≡ vars_of at.1)) }
    ensures frames { chain_of frames.new ≡ chain_of frames.old }
{
    seats.exchange(thread, stack, frames);
    exchange_on_top(frames, variables);
    seats.exchange(thread, stack, frames);
}

/// Takes the variables out of the top frame of a thread that is not in hand, and makes room after them for the result of a wait. It is
/// refused only when out of memory; then all is as it was.
fn take(
    alloc: Global,
    seats: &mut Seats,
    frames: &mut Frames,
    thread: u32,
    stack: u32,
) -> Result<Slots, AllocError>
    requires { IsOn seats.old thread stack }
    ensures taken { OnOk result (IsSomeAnd (frames_at seats.old.threads seats.old.stacks thread) (λ at. seats.new ≡ record seats.old { stacks = slice_set seats.old.stacks stack (Active thread (with_vars [] at.1)) })) }
    ensures variables { IfOk result (λ v. IsSomeAnd (frames_at seats.old.threads seats.old.stacks thread) (λ at. v.values ≡ vars_of at.1)) }
    ensures room { IfOk result HasRoomForOne }
    ensures err { OnErr result (seats.new ≡ seats.old) }
    ensures frames { chain_of frames.new ≡ chain_of frames.old }
{
    let mut variables = Slots::new(alloc);
    exchange_variables(seats, frames, thread, stack, &mut variables);
    match variables.reserve(1, 1) {
        Ok(()) => Ok(variables),
        Err(refused) => {
            exchange_variables(seats, frames, thread, stack, &mut variables);
            Err(refused)
        }
    }
}

/// Where the top frame of a thread that is woken stands after its wait, with what its variables become, which are copied. It is refused when
/// out of memory, and where no number tells the next place.
fn after_wait(
    alloc: Global,
    code: &Checked,
    seats: &Seats,
    thread: u32,
    stack: u32,
) -> Result<(Place, Slots), AllocError>
    requires on { IsOn seats.now thread stack }
    requires goes { IsSome (goes_behind code.now seats.now.threads thread seats.now.stacks) }
    ensures { IfOk result (λ r. IsSomeAnd (frames_at seats.now.threads seats.now.stacks thread) (λ at. (at.0 ≡ stack) × (behind code.now at.1 ≡ Some (stood r.0.block r.0.at r.1.values at.1)))) }
{
    let mut told = Slots::new(alloc);
    tell(0, &mut told)?;
    let mut values = Slots::new(alloc);
    let place = passing(code, seats.frames(thread, stack).top(), &told, &mut values)?;
    Ok((place, values))
}

/// The next place of the top frame of a thread that is woken, where it goes on there with the result of its wait after its variables.
fn next_of(code: &Checked, seats: &Seats, thread: u32, stack: u32) -> Option<Place>
    requires on { IsOn seats.now thread stack }
    requires goes { IsSome (goes_behind code.now seats.now.threads thread seats.now.stacks) }
    ensures { IfSome result (λ place. IsSomeAnd (frames_at seats.now.threads seats.now.stacks thread) (λ at. (at.0 ≡ stack) × (behind code.now at.1 ≡ Some (stood place.block place.at (vars_of at.1 ++ (was_woken ∷ []) ∷ []) at.1)))) }
{
    let top = seats.frames(thread, stack).top();
    let at = next_place(code, top)?;
    Some(Place {
        block: top.block,
        at,
    })
}

/// How the top frame of a thread goes on that is woken. Where it stands at the next place with the result after its variables, these are
/// taken out of it, so that they need no copy. It is refused only when out of memory; then all is as it was.
fn hold(
    alloc: Global,
    code: &Checked,
    seats: &mut Seats,
    frames: &mut Frames,
    thread: u32,
) -> Result<Onward, AllocError>
    requires { IsSome (goes_behind code.now seats.old.threads thread seats.old.stacks) }
    ensures held { IfOk result (λ o. IsSomeAnd (frames_at seats.old.threads seats.old.stacks thread) (λ at. (at.0 ≡ o.stack) × IsHeld code.now at.1 o.place.block o.place.at o.taken o.variables.values)) }
    ensures seats { IfOk result (λ o. IsSomeAnd (frames_at seats.old.threads seats.old.stacks thread) (λ at. seats.new ≡ record seats.old { stacks = slice_set seats.old.stacks o.stack (Active thread (emptied o.taken at.1)) })) }
    ensures room { IfOk result (λ o. o.taken ≡ true → HasRoomForOne o.variables) }
    ensures err { OnErr result (seats.new ≡ seats.old) }
    ensures frames { chain_of frames.new ≡ chain_of frames.old }
{
    let stack = seats.stack_of(thread);
    match next_of(code, seats, thread, stack) {
        Some(place) => {
            let variables = take(alloc, seats, frames, thread, stack)?;
            Ok(Onward {
                stack,
                place,
                taken: true,
                variables,
            })
        }
        None => {
            let (place, variables) = after_wait(alloc, code, seats, thread, stack)?;
            Ok(Onward {
                stack,
                place,
                taken: false,
                variables,
            })
        }
    }
}

/// The result of a wait comes after these variables, if it is to come there.
fn complete(taken: bool, variables: &mut Slots)
    requires { taken ≡ true → HasRoomForOne variables.old }
    ensures { variables.new.values ≡ finished taken variables.old.values }
{
    if taken {
        match variables.push_scalar(Scalar::Int { width: 32, bits: 0 }) {
            Ok(()) => {}
            Err(_refused) => unreachable!(),
        }
    }
}

/// The top frame of a thread that is not in hand stands at a place with these values.
fn stand_there(
    seats: &mut Seats,
    frames: &mut Frames,
    thread: u32,
    stack: u32,
    place: Place,
    values: &mut Slots,
)
    requires { IsOn seats.old thread stack }
    ensures seats { IsSomeAnd (frames_at seats.old.threads seats.old.stacks thread) (λ at. seats.new ≡ record seats.old { stacks = slice_set seats.old.stacks stack (Active thread (stood place.block place.at values.old.values at.1)) }) }
    ensures frames { chain_of frames.new ≡ chain_of frames.old }
{
    seats.exchange(thread, stack, frames);
    stand(frames, place, values);
    seats.exchange(thread, stack, frames);
}

/// The top frame of a thread that is woken goes on so.
fn finish(seats: &mut Seats, frames: &mut Frames, thread: u32, onward: Onward)
    requires on { IsOn seats.old thread onward.stack }
    requires room { onward.taken ≡ true → HasRoomForOne onward.variables }
    ensures seats { IsSomeAnd (frames_at seats.old.threads seats.old.stacks thread) (λ at. seats.new ≡ record seats.old { stacks = slice_set seats.old.stacks onward.stack (Active thread (stood onward.place.block onward.place.at (finished onward.taken onward.variables.values) at.1)) }) }
    ensures frames { chain_of frames.new ≡ chain_of frames.old }
{
    let Onward {
        stack,
        place,
        taken,
        mut variables,
    } = onward;
    complete(taken, &mut variables);
    stand_there(seats, frames, thread, stack, place, &mut variables);
}

/// The top frame of a thread does not go on, and has its variables again.
fn give_back(seats: &mut Seats, frames: &mut Frames, thread: u32, onward: Onward)
    requires { IsOn seats.old thread onward.stack }
    ensures seats { (fs : List Activation) → frames_at seats.old.threads seats.old.stacks thread ≡ Some (onward.stack, fs) → seats.new ≡ record seats.old { stacks = slice_set seats.old.stacks onward.stack (Active thread (undone onward.taken onward.variables.values fs)) } }
    ensures frames { chain_of frames.new ≡ chain_of frames.old }
{
    let Onward {
        stack,
        taken,
        mut variables,
        ..
    } = onward;
    if taken {
        exchange_variables(seats, frames, thread, stack, &mut variables);
    }
}

/// Each of these threads, none of which is in hand, goes on after its wait; the top frame of the thread in hand goes on with the results of
/// its instruction. A refusal leaves all as it was; the list may have changed.
fn go_on_all(
    alloc: Global,
    code: &Checked,
    seats: &mut Seats,
    frames: &mut Frames,
    woken: &[u32],
    results: &Slots,
    out: &mut Slots,
) -> Result<(), AllocError>
    requires distinct { AreDistinct woken.now }
    requires there { IsSome (all_go code.now seats.old.threads woken.now seats.old.stacks) }
    requires goes { IsSome (goes_on code.now frames.old.top results.now.values) }
    ensures ok { OnOk result (IsSomeAnd (all_go code.now seats.old.threads woken.now seats.old.stacks) (λ ss. seats.new ≡ record seats.old { stacks = ss })) }
    ensures err { OnErr result (seats.new ≡ seats.old) }
    ensures top { OnOk result (goes_on code.now frames.old.top results.now.values ≡ Some frames.new.top) }
    ensures below { frames.new.below ≡ frames.old.below }
    ensures same { OnErr result (chain_of frames.new ≡ chain_of frames.old) }
{
    match woken.split_first() {
        None => go_on(code, frames, results, out),
        Some((thread, rest)) => {
            let onward = hold(alloc, code, seats, frames, *thread)?;
            // All that can fail comes before the first frame goes on, so each does after those that come later.
            match go_on_all(alloc, code, seats, frames, rest, results, out) {
                Ok(()) => {
                    finish(seats, frames, *thread, onward);
                    Ok(())
                }
                Err(refused) => {
                    give_back(seats, frames, *thread, onward);
                    Err(refused)
                }
            }
        }
    }
}

/// The events of those that are woken by an event with that number.
#[tactic(auto, using(crate::proofs::WakeViews::woken_log))]
fn log_woken<M: Memory>(memory: &mut M, wake: u32, woken: &[u32])
    requires threads { AreThreads (M.log memory.old) woken.now }
    requires wake { wakes_at (M.log memory.old) wake ≡ true }
    requires room { length woken.now ≤ (M.room memory.old).events }
    requires count { length woken.now + length (M.log memory.old) < 4294967295 }
    ensures added { M.log memory.new ≡ logs_woken wake woken.now (M.log memory.old) }
    ensures same_objects { M.objects memory.new ≡ M.objects memory.old }
    ensures same_rule { M.rule memory.new ≡ M.rule memory.old }
{
    match woken.split_first() {
        None => {}
        Some((thread, rest)) => {
            let event = Event {
                thread: *thread,
                kind: Kind::Woken { wake },
            };
            log_other(memory, event);
            log_woken(memory, wake, rest);
        }
    }
}

/// The event of a wake, and then those of all that it wakes.
fn log_wake<M: Memory>(memory: &mut M, thread: u32, cell: CellId, number: u32, woken: &[u32])
    requires thread { is_thread (M.log memory.old) thread ≡ true }
    requires cell { HasCell (M.objects memory.old) cell }
    requires threads { AreThreads (M.log memory.old) woken.now }
    requires number { number ≡ length (M.log memory.old) }
    requires few { length woken.now ≤ 64 }
    requires room { length woken.now + 1 ≤ (M.room memory.old).events }
    requires count { length (M.log memory.old) < 4294967000 }
    ensures added { M.log memory.new ≡ logs_woken number woken.now (wake_event thread cell (length woken.now) ∷ M.log memory.old) }
    ensures same_objects { M.objects memory.new ≡ M.objects memory.old }
    ensures same_rule { M.rule memory.new ≡ M.rule memory.old }
{
    let event = Event {
        thread,
        kind: Kind::Wake {
            cell,
            count: woken.len() as u32,
        },
    };
    log_other(memory, event);
    log_woken(memory, number, woken);
}

/// Adds the lines of those that are woken by an event, of which the first has that number.
#[tactic(auto, using(crate::proofs::WakeViews::lines_rest_ok))]
fn add_woken(lines: &mut Lines, wake: u32, number: u32, woken: &[u32]) -> Result<(), AllocError>
    requires { length woken.now + number < 4294967295 }
    ensures { OnOk result (lines.new ≡ lines.old ++ woken_lines wake woken.now number) }
{
    match woken.split_first() {
        None => Ok(()),
        Some((thread, rest)) => {
            let event = Event {
                thread: *thread,
                kind: Kind::Woken { wake },
            };
            lines.push(Line::Event { number, event })?;
            add_woken(lines, wake, number + 1, rest)
        }
    }
}

/// The lines of a wake and of all that it wakes.
fn wake_lines(
    alloc: Global,
    thread: u32,
    cell: CellId,
    number: u32,
    woken: &[u32],
) -> Result<Lines, AllocError>
    requires few { length woken.now ≤ 64 }
    requires count { number < 4294967000 }
    ensures { IfOk result (λ lines. lines ≡ written.Event number (wake_event thread cell (length woken.now)) ∷ woken_lines number woken.now (number + 1)) }
{
    let mut lines = Lines::new(alloc);
    let event = Event {
        thread,
        kind: Kind::Wake {
            cell,
            count: woken.len() as u32,
        },
    };
    lines.push(Line::Event { number, event })?;
    add_woken(&mut lines, number, number + 1, woken)?;
    Ok(lines)
}

/// The thread wakes those that have waited at a cell longest, so many at most, and goes on with how many they are. Where no memory is found
/// the state is as before; the lists may have changed.
pub fn wake<M: Memory, C: Determined>(
    state: &mut State<M, C>,
    code: &Checked,
    many: u32,
    cell: CellId,
    values: &mut Slots,
    out: &mut Slots,
) -> Result<StepEnd, AllocError>
    requires left { state.old.left ≡ true }
    requires room { state.old.steps < state.old.budget }
    requires goes_on { GoesOn state.old }
    requires there { acting code.now state.old (acts.Wakes many cell) ≢ Stuck }
    ensures ok { IfOk result (λ end. answers end state.new ≡ acting code.now state.old (acts.Wakes many cell)) }
    ensures err { OnErr result (state.new ≡ state.old) }
    ensures stays { IfOk result (λ end. Stays end state.old state.new) }
{
    what_is_found_fits();
    let place = Scalar::Place {
        object: cell.object,
        at: cell.at,
    };
    match state.heap.cell_of(place) {
        Ok(cell) => {
            let _cells = state.heap.size(cell.object);
            wake_at(state, code, many, cell, values, out)
        }
        Err(fault) => state.refuse(code, case_of(fault), out),
    }
}

/// The same at a cell that is there.
fn wake_at<M: Memory, C: Determined>(
    state: &mut State<M, C>,
    code: &Checked,
    many: u32,
    cell: CellId,
    values: &mut Slots,
    out: &mut Slots,
) -> Result<StepEnd, AllocError>
    requires left { state.old.left ≡ true }
    requires room { state.old.steps < state.old.budget }
    requires goes_on { GoesOn state.old }
    requires cell { HasCell (initials state.old.objects) cell }
    requires there { waking_at code.now state.old many cell ≢ Stuck }
    ensures ok { IfOk result (λ end. answers end state.new ≡ waking_at code.now state.old many cell) }
    ensures err { OnErr result (state.new ≡ state.old) }
    ensures stays { IfOk result (λ end. Stays end state.old state.new) }
{
    state.seats.waiters_are_apart();
    let waking = state.seats.waking(cell, many);
    let woken = waking.as_slice();
    let count = waking.count();
    let lines = wake_lines(state.alloc, state.thread, cell, state.events, woken)?;
    tell(count as u128, values)?;
    state.memory.reserve(state.thread, None, count + 1)?;
    go_on_all(
        state.alloc,
        code,
        &mut state.seats,
        &mut state.frames,
        woken,
        values,
        out,
    )?;
    let _gone = state.seats.wake(cell, many);
    log_wake(&mut state.memory, state.thread, cell, state.events, woken);
    state.events += count + 1;
    state.steps += 1;
    Ok(StepEnd::Went(lines))
}
