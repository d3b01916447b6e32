// Where a stack that is entered goes on.
ghost use Rattle.std.specs.Prelude.{◌≡◌, ◌≢◌, ◌<◌, IsSome, Some, IfOk, length, slice_get, take, true, false};
ghost use Rattle.std.specs.List.{flat_map};
ghost use Rattle.frames.specs.Activations.{Activation};
ghost use Rattle.frames.specs.Chains.{frames_in, frames_of};
ghost use Rattle.frames.specs.FrameOf.{frame_of};
ghost use Rattle.frames.specs.Handlers.{first_handler};
ghost use Rattle.mu_model.specs.Acts as acts;
ghost use Rattle.step_forms.specs.Asked.{entering_of};
ghost use Rattle.run_state.specs.Acting.{objects_end};
ghost use Rattle.run_state.specs.Remembering.{initials};
ghost use Rattle.stack_moves.specs.Entering.{entered_by, arrives, found, IsPlain, frames_at};
ghost use Rattle.seats.specs.Seats.{IsReady};

use crate::edited::{Catcher, Edited};
use checked_code::Checked;
use frames::Frames;
use mu_base::Types;
use mu_model::Case;
use mu_values::{Scalar, Slots};
use run_state::exceptions::{add_exception, handler_goal};
use run_state::flow::{Place, stand};
use run_state::objects::leave_frames;
use seats::Seats;
use std::alloc::AllocError;
use step_forms::{Entering, Room};
use typed_heap::Heap;

/// How many frames end above the one that goes on, and where that stands.
#[derive(Clone, Copy, Debug, PartialEq, Eq)]
pub struct Arrival {
    /// How many frames end above the one that goes on.
    pub above: u32,
    /// Where that stands then.
    pub place: Place,
}

/// Which stack a step lands on, and how that goes on.
#[derive(Clone, Copy, Debug, PartialEq, Eq)]
pub struct Landing {
    /// The stack, by number.
    pub stack: u32,
    /// How it goes on.
    pub arrival: Arrival,
}

/// Where a stack goes on, or why it does not.
#[derive(Clone, Copy, Debug, PartialEq, Eq)]
pub enum Found {
    /// It goes on so.
    Lands(Arrival),
    /// It does not, and the run meets this case.
    Refused(Case),
}

/// Whether a list has these classes.
fn are_same(types: &Types, waits: &[u32]) -> bool
    ensures same { result ≡ true → types.now.members ≡ waits.now }
    ensures apart { result ≡ false → types.now.members ≢ waits.now }
{
    types.as_slice() == waits
}

/// Where the top frame goes on with values of the classes that it waits for.
fn pass_at(
    code: &Checked,
    frames: &Edited,
    types: &Types,
    values: &Slots,
    out: &mut Slots,
) -> Result<Arrival, AllocError>
    requires same { types.now.members ≡ frames.now.top.waits }
    requires there { IsSome (entered_by code.now (frames_of frames.now) (acts.Passes types.now.members values.now.values)) }
    ensures { IfOk result (λ a. entered_by code.now (frames_of frames.now) (acts.Passes types.now.members values.now.values) ≡ found (Found.Lands a) (frames_of frames.now) out.new.values) }
{
    let place = frames.passing(code, values, out)?;
    Ok(Arrival { above: 0, place })
}

/// Where the top frame goes on with values of these classes.
#[tactic(auto, using(crate::specs::EnteringLaws::values_misfit))]
fn pass(
    code: &Checked,
    frames: &Edited,
    types: &Types,
    values: &Slots,
    out: &mut Slots,
) -> Result<Found, AllocError>
    requires { IsSome (entered_by code.now (frames_of frames.now) (acts.Passes types.now.members values.now.values)) }
    ensures is { IfOk result (λ r. entered_by code.now (frames_of frames.now) (acts.Passes types.now.members values.now.values) ≡ found r (frames_of frames.now) out.new.values) }
    ensures plain { IfOk result IsPlain }
{
    if are_same(types, frames.waits()) {
        let arrival = pass_at(code, frames, types, values, out)?;
        Ok(Found::Lands(arrival))
    } else {
        Ok(Found::Refused(Case::StackTypes))
    }
}

/// Where a frame catches an exception, which is the first that has a handler.
fn catch_at(
    code: &Checked,
    frames: &Edited,
    catching: Catcher,
    exception: Scalar,
    out: &mut Slots,
) -> Result<Arrival, AllocError>
    requires first { first_handler (frames_of frames.now) ≡ Some catching.above }
    requires frame { slice_get (frames_of frames.now) catching.above ≡ Some (frame_of catching.frame.now) }
    requires there { IsSome (entered_by code.now (frames_of frames.now) (acts.ThrowsInto exception)) }
    ensures { IfOk result (λ a. entered_by code.now (frames_of frames.now) (acts.ThrowsInto exception) ≡ found (Found.Lands a) (frames_of frames.now) out.new.values) }
{
    // Contracts alone speak of all of the frames.
    let _ = frames;
    let block = handler_goal(catching.frame, out)?;
    add_exception(code, block, exception, out)?;
    Ok(Arrival {
        above: catching.above,
        place: Place { block, at: 0 },
    })
}

/// Where an exception is caught.
#[tactic(auto, using(crate::specs::EnteringLaws::thrown_uncaught))]
fn catch(
    code: &Checked,
    frames: &Edited,
    exception: Scalar,
    out: &mut Slots,
) -> Result<Found, AllocError>
    requires { IsSome (entered_by code.now (frames_of frames.now) (acts.ThrowsInto exception)) }
    ensures is { IfOk result (λ r. entered_by code.now (frames_of frames.now) (acts.ThrowsInto exception) ≡ found r (frames_of frames.now) out.new.values) }
    ensures plain { IfOk result IsPlain }
{
    match frames.catching() {
        None => Ok(Found::Refused(Case::Uncaught)),
        Some(catching) => {
            let arrival = catch_at(code, frames, catching, exception, out)?;
            Ok(Found::Lands(arrival))
        }
    }
}

/// Where these frames go on that are entered with what stands in the room, or why they do not. The values of the frame that goes on
/// are written to a list. It fails only when out of memory; the list may have changed then.
#[tactic(auto, using(crate::specs::EnteringLaws::misfits))]
pub fn prepare(
    code: &Checked,
    frames: &Edited,
    entering: Entering,
    room: &Room,
    out: &mut Slots,
) -> Result<Found, AllocError>
    requires { IsSome (entered_by code.now (frames_of frames.now) (entering_of entering room.now.types.members room.now.values.values)) }
    ensures is { IfOk result (λ r. entered_by code.now (frames_of frames.now) (entering_of entering room.now.types.members room.now.values.values) ≡ found r (frames_of frames.now) out.new.values) }
    ensures plain { IfOk result IsPlain }
{
    match entering {
        Entering::Passes => pass(code, frames, &room.types, &room.values, out),
        Entering::Throws(exception) => catch(code, frames, exception, out),
        Entering::Misfits => Ok(Found::Refused(Case::StackTypes)),
    }
}

/// The frames go on so, with the values in the list, and the cells of the objects of those that end are dead. The values of the former
/// variables stand in the list then.
pub fn arrive(frames: &mut Frames, heap: &mut Heap, arrival: Arrival, out: &mut Slots)
    requires { arrival.above < length (frames_in frames.old) }
    ensures frames { arrives arrival (frames_in frames.old) out.old.values ≡ Some (record { frames = frames_in frames.new; ended = take arrival.above (frames_in frames.old) }) }
    ensures objects { heap.new.objects ≡ objects_end heap.old.objects (flat_map (λ (f : Activation). f.objects) (take arrival.above (frames_in frames.old))) }
    ensures left { heap.new.left ≡ heap.old.left }
    ensures initials { initials heap.new.objects ≡ initials heap.old.objects }
{
    leave_frames(frames, heap, arrival.above);
    stand(frames, arrival.place, out);
}

/// Where a stack that is ready goes on that is entered with what stands in the room, or why it does not. The values of the frame that goes
/// on are written to a list. It fails only when out of memory; the list may have changed then.
#[tactic(auto, using(crate::specs::SwapLaws::looking))]
pub fn look(
    seats: &Seats,
    to: u32,
    code: &Checked,
    entering: Entering,
    room: &Room,
    out: &mut Slots,
) -> Result<Found, AllocError>
    requires ready { IsReady (slice_get seats.now.stacks to) }
    requires there { IsSome (entered_by code.now (frames_at (slice_get seats.now.stacks to)) (entering_of entering room.now.types.members room.now.values.values)) }
    ensures is { IfOk result (λ r. entered_by code.now (frames_at (slice_get seats.now.stacks to)) (entering_of entering room.now.types.members room.now.values.values) ≡ found r (frames_at (slice_get seats.now.stacks to)) out.new.values) }
    ensures plain { IfOk result IsPlain }
{
    match seats.ready(to) {
        Some(stack) => prepare(code, &Edited::whole(stack.frames()), entering, room, out),
        None => unreachable!(),
    }
}
