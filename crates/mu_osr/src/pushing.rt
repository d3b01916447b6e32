// A frame that is pushed.
ghost use Rattle.std.specs.Prelude.{◌≡◌, ◌≢◌, ◌≤◌, ◌<◌, ◌+◌, ◌∷◌, length, IfOk, IfErr, OnErr, true, false};
ghost use Rattle.checked_code.specs.Checking.{bundle_functions, bundle_tables};
ghost use Rattle.frames.specs.Chains.{frames_in};
ghost use Rattle.frames.specs.FrameOf.{frame_of};
ghost use Rattle.mu_model.specs.Types.{classes_given, classes_taken};
ghost use Rattle.mu_osr.specs.Pushing.{before_parameters, Pushes, WhyNot};

use crate::editing::append;
use crate::room::EditRoom;
use checked_code::Checked;
use frames::{Frame, Frames};
use mu_base::{Ids, Types};
use mu_values::{Passed, Slots};
use stacks::ReadyStack;
use std::alloc::Global;
use std::mem;
use std::snapshot::Snapshot;

/// Why no frame is pushed.
#[derive(Clone, Copy, Debug, PartialEq, Eq)]
pub enum PushFault {
    /// The function is only declared.
    NoBody,
    /// Its results are not of the types that the stack waits for.
    Misfit,
}

/// The classes of the results of a function, in order; none where there is no such function.
pub fn results_of(code: &Checked, function: u32) -> &[u32]
    ensures { result.now ≡ classes_given (bundle_tables code.now) function }
{
    let tables = code.tables();
    let Some(number) = tables.functions.as_slice().get(function as usize) else {
        return &[];
    };
    let Some(signature) = tables.signatures.as_slice().get(*number as usize) else {
        return &[];
    };
    signature.gives.as_slice()
}

/// The classes of the parameters of a function, in order; none where there is no such function. `EditRoom::for_edit` asks how many there
/// are.
pub fn parameters_of(code: &Checked, function: u32) -> &[u32]
    ensures { result.now ≡ classes_taken (bundle_tables code.now) function }
{
    let tables = code.tables();
    let Some(number) = tables.functions.as_slice().get(function as usize) else {
        return &[];
    };
    let Some(signature) = tables.signatures.as_slice().get(*number as usize) else {
        return &[];
    };
    signature.takes.as_slice()
}

/// Whether these classes are those of a list.
fn are_same(classes: &[u32], list: &Types) -> bool
    ensures same { result ≡ true → classes.now ≡ list.now.members }
    ensures apart { result ≡ false → classes.now ≢ list.now.members }
{
    classes == list.as_slice()
}

/// Whether the results of a function are of these classes, in order.
pub fn has_results(code: &Checked, function: u32, classes: &Types) -> bool
    ensures same { result ≡ true → classes_given (bundle_tables code.now) function ≡ classes.now.members }
    ensures apart { result ≡ false → classes_given (bundle_tables code.now) function ≢ classes.now.members }
{
    are_same(results_of(code, function), classes)
}

/// A frame that waits for the parameters of its block, which are of these classes.
fn frame_before(alloc: Global, block: u32, waits: Types) -> Frame
    ensures { frame_of result ≡ before_parameters block waits.members }
{
    Frame {
        block,
        at: 0,
        slots: Slots::new(alloc),
        fresh: true,
        waits,
        handler: None,
        kept: Passed::new(Types::new(alloc), Slots::new(alloc)),
        cells: Ids::new(alloc),
    }
}

/// Puts a frame on top of others, which have room for it.
fn put_on(frames: &mut Frames, frame: Frame)
    requires { 0 < frames.old.spare }
    ensures frames { frames_in frames.new ≡ frame_of frame ∷ frames_in frames.old }
    ensures spare { frames.old.spare ≤ frames.new.spare + 1 }
{
    match frames.enter(frame) {
        Ok(()) => {}
        Err(_refused) => unreachable!(),
    }
}

/// Puts a frame of the function on top, before its first instruction: then the stack waits for the parameters of the function. The room
/// must be one that was made for the stack, which was changed by `pop_to` and `push` with this room only since then, and by no push; it
/// must have been made for as many parameters as the function has, or more. It takes no memory. `NoBody` comes exactly where the function
/// is only declared, and `Misfit` exactly where it has a body and its results are not of the types that the stack waits for: then the
/// stack comes back, and the room is as before.
pub fn push(
    stack: ReadyStack,
    code: &Checked,
    function: u32,
    room: &mut EditRoom,
) -> Result<ReadyStack, (ReadyStack, PushFault)>
    requires made { room.old.frames ≡ frames_in stack.frames }
    requires unused { room.old.pushed ≡ false }
    requires free { 0 < stack.frames.spare }
    requires there { function < length (bundle_functions code.now) }
    requires parameters { length (classes_taken (bundle_tables code.now) function) ≤ room.old.parameters }
    ensures number { IfOk result (λ s. s.number ≡ stack.number) }
    ensures frames { IfOk result (λ s. Pushes code.now function stack (frames_in s.frames)) }
    ensures waits { IfOk result (λ s. s.waits ≡ s.frames.top.waits) }
    ensures used { IfOk result (λ s. room.new ≡ record room.old { frames = frames_in s.frames; pops = room.old.pops + 1; pushed = true }) }

    ensures why { IfErr result (λ e. WhyNot code.now function stack e.1) }
    ensures back { IfErr result (λ e. e.0 ≡ stack) }
    ensures same { OnErr result (room.new ≡ room.old) }
{
    let Some(block) = code.function(function).first else {
        return Err((stack, PushFault::NoBody));
    };
    if !has_results(code, function, stack.waits()) {
        return Err((stack, PushFault::Misfit));
    }
    append(&mut room.takes, parameters_of(code, function));
    append(&mut room.also, parameters_of(code, function));
    let takes = mem::replace(&mut room.takes, Types::new(room.alloc));
    let also = mem::replace(&mut room.also, Types::new(room.alloc));
    room.pops += 1;
    room.pushed = true;
    let mut open = stack.begin_edit();
    put_on(open.frames_mut(), frame_before(room.alloc, block, takes));
    let stack = open.close(also);
    room.frames = Snapshot::of(stack.frames());
    Ok(stack)
}
