// A thread that moves from its stack to another one.
ghost use Rattle.std.specs.Prelude.{◌≡◌, ◌≢◌, ◌+◌, ◌-◌, ◌<◌, ◌∷◌, [], Some, IfOk, length, slice_get, false};
ghost use Rattle.frames.specs.Chains.{frames_in};
ghost use Rattle.mem_axioms.specs.EventFits.{EventFits};
ghost use Rattle.mem_axioms.specs.Lemmas.Kept.{is_any_access};
ghost use Rattle.mu_model.specs.declared.lines.Line.TheVariants as written;
ghost use Rattle.mu_model.specs.Configuration.{Ready, Dead};
ghost use Rattle.step_forms.specs.Asked.{entering_of};
ghost use Rattle.step_forms.specs.declared.entering.Entering.TheVariants as asked_to;
ghost use Rattle.seats.specs.Seats.{IsOn, IsReadyFor};
ghost use Rattle.stack_moves.specs.Entering.{handed, IsMoved};

use frames::Frames;
use mem_axioms::{Event, Memory};
use memory_acts::accessing::commit_other;
use mu_base::Types;
use mu_model::{Line, Lines};
use run_state::results::taken;
use seats::Seats;
use stacks::Entered;
use std::alloc::{AllocError, Global};
use std::marker::Brand;
use std::sync::ledger::Blank;
use step_forms::{Entering, Room};

/// A thread, and the stack that it is on.
#[derive(Clone, Copy, Debug, PartialEq, Eq)]
pub struct Seat {
    /// The thread, by number.
    pub thread: u32,
    /// The stack, by number.
    pub stack: u32,
}

/// The same classes. It is refused only when out of memory.
pub fn copied(alloc: Global, types: &Types) -> Result<Types, AllocError>
    ensures { IfOk result (λ copy. copy.members ≡ types.now.members) }
{
    Ok(Types::from_vec(Vec::from_slice(alloc, types.as_slice())?))
}

/// The lines of two events, the first of which has that number. It is refused only when out of memory.
pub fn lines_of(
    alloc: Global,
    number: u32,
    first: Event,
    second: Event,
) -> Result<Lines, AllocError>
    requires { number + 1 < 4294967295 }
    ensures { IfOk result (λ lines. lines ≡ written.Event number first ∷ written.Event (number + 1) second ∷ []) }
{
    let mut lines = Lines::new(alloc);
    lines.push(Line::Event {
        number,
        event: first,
    })?;
    lines.push(Line::Event {
        number: number + 1,
        event: second,
    })?;
    Ok(lines)
}

/// What is handed to a stack. Values are moved out of the room with their classes, and both lists of the room are empty then. An exception
/// leaves the room as it is. The error comes exactly where values are to be handed on and the room has not as many classes as values; then
/// the room is as it was. It takes no memory.
pub fn hand_over(alloc: Global, entering: Entering, room: &mut Room) -> Result<Entered, AllocError>
    requires { entering ≢ asked_to.Misfits }
    ensures { IfOk result (λ e. handed e ≡ entering_of entering room.old.types.members room.old.values.values) }
{
    match entering {
        Entering::Passes => Ok(Entered::Values(taken(alloc, room)?)),
        Entering::Throws(exception) => Ok(Entered::Thrown(exception)),
        Entering::Misfits => unreachable!(),
    }
}

/// What was handed to a stack is moved back to the room. Values and their classes take the place of what the room held. An exception
/// leaves the room as it is. All else in the room stays. It takes no memory, and so is not refused.
pub fn hand_back(passed: Entered, room: &mut Room) {
    match passed {
        Entered::Values(values) => {
            let (types, values) = values.into_parts();
            room.types = types;
            room.values = values;
        }
        Entered::Thrown(_exception) => {}
    }
}

/// The thread puts its frames back, leaves its stack for values of these classes, and takes up the frames of another stack that it
/// enters. What was handed to that comes back.
#[tactic(auto, using(crate::specs::EnteringLaws::moving))]
pub fn switch(
    seats: &mut Seats,
    seat: Seat,
    frames: &mut Frames,
    waits: Types,
    to: u32,
    with_: Entered,
) -> Entered
    requires on { IsOn seats.old seat.thread seat.stack }
    requires within { seat.stack < length seats.old.stacks }
    requires other { to ≢ seat.stack }
    requires waits { frames.old.top.waits ≡ waits.members }
    requires takes { IsReadyFor (slice_get seats.old.stacks to) with_ }
    ensures passed { result ≡ with_ }
    ensures frames { slice_get seats.old.stacks to ≡ Some (Ready (frames_in frames.new)) }
    ensures moved { IsMoved seats.old seats.new seat.thread seat.stack to (Ready (frames_in frames.old)) }
{
    seats.exchange(seat.thread, seat.stack, frames);
    let passed = seats.leave_to(seat.thread, seat.stack, waits, to, with_);
    seats.exchange(seat.thread, to, frames);
    passed
}

/// The thread puts its frames back, its stack dies, and it takes up the frames of another stack that it enters. The frames of the
/// dead stack come back, and what was handed to the other one.
#[tactic(auto, using(crate::specs::EnteringLaws::moving))]
pub fn switch_ending(
    seats: &mut Seats,
    seat: Seat,
    frames: &mut Frames,
    to: u32,
    with_: Entered,
) -> (Frames, Entered)
    requires on { IsOn seats.old seat.thread seat.stack }
    requires within { seat.stack < length seats.old.stacks }
    requires other { to ≢ seat.stack }
    requires takes { IsReadyFor (slice_get seats.old.stacks to) with_ }
    ensures ended { frames_in result.0 ≡ frames_in frames.old }
    ensures passed { result.1 ≡ with_ }
    ensures frames { slice_get seats.old.stacks to ≡ Some (Ready (frames_in frames.new)) }
    ensures moved { IsMoved seats.old seats.new seat.thread seat.stack to Dead }
{
    seats.exchange(seat.thread, seat.stack, frames);
    let (ended, passed) = seats.end_to(seat.thread, seat.stack, to, with_);
    seats.exchange(seat.thread, to, frames);
    (ended, passed)
}

/// A memory gets an event that is no access.
pub fn log_other<M: Memory>(memory: &mut M, event: Event)
    requires other { is_any_access event ≡ false }
    requires fits { EventFits (M.rule memory.old) (M.objects memory.old) (M.log memory.old) event }
    requires room { 0 < (M.room memory.old).events }
    requires count { length (M.log memory.old) + 1 < 4294967295 }
    ensures added { M.log memory.new ≡ event ∷ M.log memory.old }
    ensures left { (M.room memory.new).events ≡ (M.room memory.old).events - 1 }
    ensures same_objects { M.objects memory.new ≡ M.objects memory.old }
    ensures same_rule { M.rule memory.new ≡ M.rule memory.old }
{
    commit_other::<M, Brand>(memory, event, Blank::new(1));
}

/// A memory gets two events that are no accesses.
pub fn log_two<M: Memory>(memory: &mut M, first: Event, second: Event)
    requires first { is_any_access first ≡ false }
    requires second { is_any_access second ≡ false }
    requires first_fits { EventFits (M.rule memory.old) (M.objects memory.old) (M.log memory.old) first }
    requires second_fits { EventFits (M.rule memory.old) (M.objects memory.old) (first ∷ M.log memory.old) second }
    requires room { (M.room memory.old).events ≡ 2 }
    requires count { length (M.log memory.old) + 2 < 4294967295 }
    ensures log { M.log memory.new ≡ second ∷ first ∷ M.log memory.old }
    ensures same_objects { M.objects memory.new ≡ M.objects memory.old }
    ensures same_rule { M.rule memory.new ≡ M.rule memory.old }
{
    log_other(memory, first);
    log_other(memory, second);
}
