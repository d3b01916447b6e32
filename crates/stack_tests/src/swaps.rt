// A thread leaves one stack and goes on on another.
ghost use Rattle.std.specs.Prelude.{◌≡◌, ◌<◌, length, slice_set, IfOk, OnOk};
ghost use Rattle.stacks.specs.Directories.{Active};

use crate::stacks_made::{frame_at, make, null_of, one_frame, one_type};
use frames::Frames;
use mu_base::Types;
use mu_values::Passed;
use stacks::{ActiveStack, Directory, Entered, StackState};
use std::alloc::{AllocError, Global};
use std::process::Abort;
use std::test::Fail;

fn two_frames(alloc: Global) -> Result<Frames, AllocError> {
    let mut frames = one_frame(alloc, 0)?;
    match frames.enter(frame_at(alloc, 1)) {
        Ok(()) => Ok(frames),
        Err((_frame, refusal)) => Err(refusal),
    }
}

// Stack 0 has one frame and waits for a value of class 4, stack 1 has two and waits for one of class 6.
fn two_stacks(alloc: Global) -> Result<Directory, AllocError>
    ensures { IfOk result (λ all. length all ≡ 2) }
{
    let first = one_frame(alloc, 0)?;
    let second = two_frames(alloc)?;
    let mut all = Directory::new(alloc);
    make(alloc, &mut all, first, 4)?;
    make(alloc, &mut all, second, 6)?;
    Ok(all)
}

// A stack is entered on thread 5 by values.
fn enter(
    rt: &impl Abort,
    all: &mut Directory,
    number: u32,
    passed: Passed,
) -> Result<ActiveStack, &'static str>
    ensures there { OnOk result (number < length all.old) }
    ensures number { IfOk result (λ s. s.number ≡ number) }
    ensures active { OnOk result (all.new ≡ slice_set all.old number (Active 5)) }
{
    if number >= all.count() {
        return Err("there is such a stack");
    }
    let stack = all.take(number, 5).map_err(|_| "the stack is ready")?;
    let bound = stack.bind_values(5, passed);
    let mut bound = bound.map_err(|_| "the stack waits for these types")?;
    match bound.entered() {
        Entered::Values(values) => assert_eq!(rt; values.values().len(), 1),
        Entered::Thrown(_exception) => assert!(rt; false, "values were passed"),
    }
    Ok(bound)
}

fn is_on_thread_5(rt: &impl Abort, stack: &ActiveStack, number: u32, frames: u32) {
    assert_eq!(rt; stack.number(), number);
    assert_eq!(rt; stack.thread(), 5);
    assert_eq!(rt; stack.frames().count(), frames);
}

fn state_of(all: &Directory, number: u32) -> Option<StackState> {
    if number < all.count() {
        Some(all.state_of(number))
    } else {
        None
    }
}

fn has_states(rt: &impl Abort, all: &Directory, first: StackState, second: StackState) {
    assert_eq!(rt; all.count(), 2);
    assert_eq!(rt; state_of(all, 0), Some(first));
    assert_eq!(rt; state_of(all, 1), Some(second));
}

// The types that a stack waits for which is ready, where its number is that.
fn waits_of(all: &Directory, number: u32) -> Option<&[u32]> {
    if number >= all.count() {
        return None;
    }
    match all.ready(number) {
        Some(stack) if stack.number() == number => Some(stack.waits().as_slice()),
        _ => None,
    }
}

// What the directory tells once the thread has gone from stack 0, which waits for a value of class 8, to stack 1.
fn swapped(rt: &impl Abort, all: &Directory) {
    has_states(rt, all, StackState::Ready, StackState::Active(5));
    assert_eq!(rt; waits_of(all, 1), None);
    assert_eq!(rt; waits_of(all, 0), Some([8].as_slice()));
}

// A thread that leaves stack 0 goes on on it, where it did not stand in the directory since.
fn leave_and_go_back(
    rt: &impl Abort,
    all: &mut Directory,
    passed: Passed,
    waits: Types,
) -> Result<(), &'static str> {
    let stack = enter(rt, all, 0, passed)?.unbind(waits);
    let bound = stack.back(5);
    is_on_thread_5(rt, &bound, 0, 1);
    has_states(rt, all, StackState::Active(5), StackState::Ready);
    Ok(())
}

// Thread 5 leaves stack 0, which goes back to the directory.
#[tactic(auto, using(stacks::specs::Lemmas::Writes::get_written))]
fn leave_first(
    rt: &impl Abort,
    all: &mut Directory,
    waits: Types,
    passed: Passed,
) -> Result<(), &'static str> {
    let left = enter(rt, all, 0, passed)?.unbind(waits);
    all.put_back(left);
    Ok(())
}

// Thread 5 goes on on stack 1.
fn enter_second(rt: &impl Abort, all: &mut Directory, passed: Passed) -> Result<(), &'static str> {
    let bound = enter(rt, all, 1, passed)?;
    is_on_thread_5(rt, &bound, 1, 2);
    Ok(())
}

#[test]
fn swaps_two_stacks(rt: HostRuntime) -> Result<(), Fail> {
    let waits = one_type(rt.alloc(), 8)?;
    let first = null_of(rt.alloc(), 4)?;
    let second = null_of(rt.alloc(), 6)?;
    let mut all = two_stacks(rt.alloc())?;
    leave_first(&rt, &mut all, waits, first)?;
    enter_second(&rt, &mut all, second)?;
    swapped(&rt, &all);
    Ok(())
}

#[test]
fn goes_back_to_a_stack(rt: HostRuntime) -> Result<(), Fail> {
    let waits = one_type(rt.alloc(), 8)?;
    let passed = null_of(rt.alloc(), 4)?;
    let mut all = two_stacks(rt.alloc())?;
    leave_and_go_back(&rt, &mut all, passed, waits)?;
    Ok(())
}
