// Edits of the frames in hand, which the client's answer asks for.
ghost use Rattle.std.specs.Prelude.{◌≡◌, ◌<◌, IfOk, IfSome, IsSome, IsSomeAnd, IfNone, OnErr, OnOk, Some, Err, length, slice_get};
ghost use Rattle.frames.specs.Chains.{chain_of, frames_in, frames_of};
ghost use Rattle.mu_model.specs.Edits.{edited};
ghost use Rattle.client_hooks.specs.Replies.{edit_of};
ghost use Rattle.model_numbers.specs.Numbered.{numbered};
ghost use Rattle.seats.specs.Seats.{IsOn};
ghost use Rattle.run_state.specs.Acting.{objects_end, with_awaited};
ghost use Rattle.run_state.specs.Remembering.{initials};
ghost use Rattle.stack_moves.specs.Editing.{IsMade, after_edit};
ghost use Rattle.trap_acts.specs.Trapping.{waiting_frames};
ghost use Rattle.stack_moves.specs.SwapLaws.{frames_objects};

use checked_code::Checked;
use client_hooks::{Determined, Edit};
use frames::Frames;
use mem_axioms::Memory;
use mu_base::{Ids, Types};
use mu_model::Case;
use run_state::objects::end_objects;
use run_state::waiting::{Wait, exchange_on_top};
use seats::Seats;
use stack_moves::edited::{Edited, is_no_edit};
use stack_moves::moving::Seat;
use std::alloc::{AllocError, Global};
use thread_acts::state::State;
use trap_answers::edit_refusal;
use typed_heap::Heap;

/// Why an edit of the thread's frames cannot be made, where the top one waits so; None comes exactly where it can. Nothing changes.
#[tactic(auto, using(crate::specs::TrapLaws::unedited))]
pub(crate) fn refusal<M: Memory, C: Determined>(
    state: &mut State<M, C>,
    code: &Checked,
    edit: Edit,
    wait: &mut Wait,
) -> Option<Case>
    requires there { IsSome (edited (numbered code.now) (edit_of edit) (frames_of (waiting_frames state.old wait.old))) }
    ensures refused { IfSome result (λ k. edited (numbered code.now) (edit_of edit) (frames_of (waiting_frames state.old wait.old)) ≡ Some (Err k)) }
    ensures goes { IfNone result (IsMade code.now (edit_of edit) (frames_of (waiting_frames state.old wait.old))) }
    ensures same { state.new ≡ state.old }
    ensures wait { wait.new ≡ wait.old }
{
    if is_no_edit(edit) {
        return None;
    }
    exchange_on_top(&mut state.frames, wait);
    let refused = edit_refusal(code, &state.frames, edit);
    exchange_on_top(&mut state.frames, wait);
    refused
}

/// The classes of what the top one of these frames waits for after an edit, where it waits so before. Nothing changes.
#[tactic(auto, using(crate::proofs::TrapViews::waits_of))]
pub(crate) fn waits_after(
    alloc: Global,
    code: &Checked,
    frames: &mut Frames,
    edit: Edit,
    wait: &mut Wait,
) -> Result<Types, AllocError>
    requires { IsMade code.now (edit_of edit) (frames_in (record frames.old { top = with_awaited frames.old.top wait.old })) }
    ensures waits { IfOk result (λ types. IsSomeAnd (slice_get (after_edit code.now (edit_of edit) (frames_in (record frames.old { top = with_awaited frames.old.top wait.old }))).frames 0) (λ f. f.waits ≡ types.members)) }
    ensures frames { chain_of frames.new ≡ chain_of frames.old }
    ensures wait { wait.new ≡ wait.old }
{
    exchange_on_top(frames, wait);
    let waits = Vec::from_slice(alloc, Edited::after(code, frames, edit).waits());
    exchange_on_top(frames, wait);
    Ok(Types::from_vec(waits?))
}

/// The frames in hand of a thread are edited, and the objects of those that were popped are the result. It is refused only when out of
/// memory, and then nothing changes.
fn edit_frames(
    alloc: Global,
    code: &Checked,
    seat: Seat,
    seats: &mut Seats,
    frames: &mut Frames,
    edit: Edit,
) -> Result<Ids, AllocError>
    requires on { IsOn seats.old seat.thread seat.stack }
    requires within { seat.stack < length seats.old.stacks }
    requires goes { IsMade code.now (edit_of edit) (frames_in frames.old) }
    ensures seats { seats.new ≡ seats.old }
    ensures frames { OnOk result (frames_in frames.new ≡ (after_edit code.now (edit_of edit) (frames_in frames.old)).frames) }
    ensures objects { IfOk result (λ ids. ids.members ≡ frames_objects (after_edit code.now (edit_of edit) (frames_in frames.old)).ended) }
    ensures same { OnErr result (frames_in frames.new ≡ frames_in frames.old) }
{
    seats.exchange(seat.thread, seat.stack, frames);
    let ended = trap_answers::edit(alloc, code, edit, seats, seat.thread, seat.stack);
    seats.exchange(seat.thread, seat.stack, frames);
    ended
}

/// The top one of the frames in hand waits so, and then they are edited; the cells of the objects of those that were popped are dead.
/// It is refused only when out of memory, and then nothing changes.
#[tactic(auto, using(crate::specs::TrapLaws::unedited))]
pub(crate) fn wait_and_edit(
    alloc: Global,
    code: &Checked,
    seat: Seat,
    seats: &mut Seats,
    frames: &mut Frames,
    heap: &mut Heap,
    edit: Edit,
    wait: &mut Wait,
) -> Result<(), AllocError>
    requires on { IsOn seats.old seat.thread seat.stack }
    requires within { seat.stack < length seats.old.stacks }
    requires goes { IsMade code.now (edit_of edit) (frames_in (record frames.old { top = with_awaited frames.old.top wait.old })) }
    ensures seats { seats.new ≡ seats.old }
    ensures frames { OnOk result (frames_in frames.new ≡ (after_edit code.now (edit_of edit) (frames_in (record frames.old { top = with_awaited frames.old.top wait.old }))).frames) }
    ensures objects { OnOk result (heap.new.objects ≡ objects_end heap.old.objects (frames_objects (after_edit code.now (edit_of edit) (frames_in (record frames.old { top = with_awaited frames.old.top wait.old }))).ended)) }
    ensures left { heap.new.left ≡ heap.old.left }
    ensures initials { initials heap.new.objects ≡ initials heap.old.objects }
    ensures same_frames { OnErr result (chain_of frames.new ≡ chain_of frames.old) }
    ensures same_objects { OnErr result (heap.new.objects ≡ heap.old.objects) }
{
    exchange_on_top(frames, wait);
    if is_no_edit(edit) {
        return Ok(());
    }
    match edit_frames(alloc, code, seat, seats, frames, edit) {
        Ok(ended) => {
            end_objects(heap, ended.as_slice());
            Ok(())
        }
        Err(refused) => {
            exchange_on_top(frames, wait);
            Err(refused)
        }
    }
}
