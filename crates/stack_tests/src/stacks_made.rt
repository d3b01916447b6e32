// Stacks to test with.
ghost use Rattle.std.specs.Prelude.{◌≡◌, ◌+◌, length, IfOk, OnOk};

use frames::{Frame, Frames};
use mu_base::{Ids, Types};
use mu_values::{Passed, Scalar, Slots, Value};
use stacks::{ActiveStack, Directory};
use std::alloc::{AllocError, Global};

/// One class of a type.
pub(crate) fn one_type(alloc: Global, class: u32) -> Result<Types, AllocError>
    ensures { IfOk result (λ types. length types.members ≡ 1) }
{
    let mut types = Types::new(alloc);
    types.push(class)?;
    Ok(types)
}

/// NULL, as a value of a class.
pub(crate) fn null_of(alloc: Global, class: u32) -> Result<Passed, AllocError> {
    let mut value = Value::new(alloc);
    value.push(Scalar::Null)?;
    let mut values = Slots::new(alloc);
    values.push(value)?;
    Ok(Passed::new(one_type(alloc, class)?, values))
}

/// A frame at the first instruction of a block.
pub(crate) fn frame_at(alloc: Global, block: u32) -> Frame {
    Frame {
        block,
        at: 0,
        slots: Slots::new(alloc),
        fresh: false,
        waits: Types::new(alloc),
        handler: None,
        kept: Passed::new(Types::new(alloc), Slots::new(alloc)),
        cells: Ids::new(alloc),
    }
}

/// One frame, at the first instruction of a block.
pub(crate) fn one_frame(alloc: Global, block: u32) -> Result<Frames, AllocError> {
    match Frames::new(alloc, frame_at(alloc, block)) {
        Ok(frames) => Ok(frames),
        Err((_frame, refusal)) => Err(refusal),
    }
}

/// Makes a stack of these frames that waits for a value of a class.
pub(crate) fn make(
    alloc: Global,
    all: &mut Directory,
    frames: Frames,
    class: u32,
) -> Result<u32, AllocError>
    ensures number { IfOk result (λ number. number ≡ length all.old) }
    ensures made { OnOk result (length all.new ≡ length all.old + 1) }
{
    match all.make(frames, one_type(alloc, class)?) {
        Ok(number) => Ok(number),
        Err((_frames, refusal)) => Err(refusal),
    }
}

/// A new stack of a directory, which is bound to a thread.
pub(crate) fn bound_stack(
    alloc: Global,
    all: &mut Directory,
    thread: u32,
) -> Result<ActiveStack, AllocError>
    ensures bound { IfOk result (λ stack. stack.thread ≡ thread) }
{
    let passed = null_of(alloc, 4)?;
    let frames = one_frame(alloc, 0)?;
    let number = make(alloc, all, frames, 4)?;
    let stack = all.take(number, thread).map_err(|_| AllocError)?;
    stack.bind_values(thread, passed).map_err(|_| AllocError)
}
