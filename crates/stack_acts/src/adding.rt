// Stacks that are made.
ghost use Rattle.std.specs.Prelude.{◌≡◌, ◌++◌, IsSome, Some, IfOk, OnOk, OnErr};
ghost use Rattle.checked_code.specs.Checking.{bundle_tables};
ghost use Rattle.frames.specs.Chains.{stands};
ghost use Rattle.frames.specs.FrameOf.{frame_of};
ghost use Rattle.mu_model.specs.Types.{classes_taken};
ghost use Rattle.run_state.specs.Acting.{goes_on};
ghost use Rattle.stack_acts.specs.StackLaws.{waiting_frame, with_stack};

use checked_code::Checked;
use frames::{Frame, Frames};
use mu_base::{Ids, Types};
use mu_values::{Passed, Slots};
use run_state::flow::{next_place, passing, stand};
use seats::Seats;
use std::alloc::{AllocError, Global};

/// The classes of what a function takes.
fn classes_taken(alloc: Global, code: &Checked, function: u32) -> Result<Types, AllocError>
    ensures { IfOk result (λ classes. classes.members ≡ classes_taken (bundle_tables code.now) function) }
{
    let tables = code.tables();
    let Some(number) = tables.functions.as_slice().get(function as usize) else {
        return Ok(Types::new(alloc));
    };
    let Some(signature) = tables.signatures.as_slice().get(*number as usize) else {
        return Ok(Types::new(alloc));
    };
    let classes = Vec::from_slice(alloc, signature.takes.as_slice())?;
    Ok(Types::from_vec(classes))
}

/// A frame that waits for parameters of these classes, before the first instruction of its block.
fn waiting_frame(alloc: Global, block: u32, waits: Types) -> Frame
    ensures { frame_of result ≡ waiting_frame block waits.members }
{
    Frame {
        block,
        at: 0,
        slots: Slots::new(alloc),
        fresh: true,
        waits,
        handler: None,
        kept: Passed::new(Types::new(alloc), Slots::new(alloc)),
        cells: Ids::new(alloc),
    }
}

/// A function that a stack is made for, and its first block.
#[derive(Clone, Copy)]
pub struct Begun {
    pub function: u32,
    pub block: u32,
}

/// There is one stack more, ready for the parameters of a function. It is refused only when out of memory; then nothing changes.
fn add_stack(
    alloc: Global,
    code: &Checked,
    begun: Begun,
    seats: &mut Seats,
) -> Result<(), AllocError>
    ensures ok { OnOk result (seats.new ≡ with_stack begun.block (classes_taken (bundle_tables code.now) begun.function) seats.old) }
    ensures err { OnErr result (seats.new ≡ seats.old) }
{
    let waits = classes_taken(alloc, code, begun.function)?;
    let also = classes_taken(alloc, code, begun.function)?;
    match Frames::new(alloc, waiting_frame(alloc, begun.block, waits)) {
        Ok(frames) => {
            seats.make(frames, also)?;
            Ok(())
        }
        Err((_frame, refusal)) => Err(refusal),
    }
}

/// There is one stack more. The top frame stands at a place of its block, and its variables end with these results. When out of memory
/// nothing changes.
fn give_stack_next(
    alloc: Global,
    code: &Checked,
    begun: Begun,
    seats: &mut Seats,
    frames: &mut Frames,
    at: u32,
    results: &Slots,
) -> Result<(), AllocError>
    ensures seats { OnOk result (seats.new ≡ with_stack begun.block (classes_taken (bundle_tables code.now) begun.function) seats.old) }
    ensures frames { OnOk result (frames.new ≡ record frames.old { top = stands frames.old.top frames.old.top.block at (frames.old.top.vars ++ results.now.values) }) }
    ensures same_seats { OnErr result (seats.new ≡ seats.old) }
    ensures same_frames { OnErr result (frames.new ≡ frames.old) }
{
    let frame = frames.top_mut();
    frame.slots.reserve_for(results)?;
    add_stack(alloc, code, begun, seats)?;
    frame.stand_behind(at, results);
    Ok(())
}

/// There is one stack more, and the top frame goes on with these results of its instruction. Where no memory is found the stacks and the
/// frames are as before; the list may have changed.
pub fn give_stack(
    alloc: Global,
    code: &Checked,
    begun: Begun,
    seats: &mut Seats,
    frames: &mut Frames,
    results: &Slots,
    out: &mut Slots,
) -> Result<(), AllocError>
    requires { IsSome (goes_on code.now frames.old.top results.now.values) }
    ensures seats { OnOk result (seats.new ≡ with_stack begun.block (classes_taken (bundle_tables code.now) begun.function) seats.old) }
    ensures top { OnOk result (goes_on code.now frames.old.top results.now.values ≡ Some frames.new.top) }
    ensures below { frames.new.below ≡ frames.old.below }
    ensures same_seats { OnErr result (seats.new ≡ seats.old) }
    ensures same_frames { OnErr result (frames.new ≡ frames.old) }
{
    if let Some(at) = next_place(code, frames.top()) {
        return give_stack_next(alloc, code, begun, seats, frames, at, results);
    }
    let place = passing(code, frames.top(), results, out)?;
    add_stack(alloc, code, begun, seats)?;
    stand(frames, place, out);
    Ok(())
}
