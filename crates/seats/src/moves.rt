// Stacks that move between the directory and a thread.
ghost use Rattle.std.specs.Prelude.{◌≡◌, ◌<◌, ◌≤◌, [], ◌∷◌, ◌++◌, Some, None, IfOk, OnOk, OnErr, IsSome, length, slice_get, slice_set, vec_capacity};
ghost use Rattle.mu_values.specs.declared.scalars.Scalar.TheVariants as scalars;
ghost use Rattle.frames.specs.Chains.{frames_in};
ghost use Rattle.mu_threads.specs.Threads.{stack_of, with_stack, IsLeft};
ghost use Rattle.stacks.specs.Directories.{Active, Ready, Dead, ready_frames};
ghost use Rattle.seats.specs.Seats.{Takes};
ghost use Rattle.seats.specs.Kept.{bound_from, frames_held, with_frames, held_from, ready_at, dead_at, TakesThere, IsTakenBy};

use frames::Frames;
use mu_base::Types;
use mu_threads::{ThreadState, Threads};
use mu_values::Scalar;
use stacks::{ActiveStack, Directory, Entered, ReadyStack};
use std::alloc::{AllocError, Global};
use std::mem;
use text_forms::Listing;

/// So many threads are made in a run at most.
const MOST_THREADS: usize = 64;

/// Makes the first stack, active on thread 0.
pub(crate) fn first(
    alloc: Global,
    stacks: &mut Directory,
    frames: Frames,
) -> Result<ActiveStack, AllocError>
    requires { stacks.old ≡ [] }
    ensures stack { IfOk result (λ s. s ≡ record { number = 0; thread = 0; frames = frames; passed = None }) }
    ensures stacks { OnOk result (stacks.new ≡ Active 0 ∷ []) }
{
    match stacks.make(frames, Types::new(alloc)) {
        Ok(number) => match stacks.take(number, 0) {
            Ok(stack) => Ok(stack.back(0)),
            Err(_not_ready) => unreachable!(),
        },
        Err((_frames, refusal)) => Err(refusal),
    }
}

/// Makes the first thread, on a stack that is bound to it.
pub(crate) fn first_thread(alloc: Global, stack: ActiveStack) -> Result<Threads, AllocError>
    requires { stack.thread ≡ 0 }
    ensures states { IfOk result (λ t. t.states ≡ ThreadState.Runs ∷ []) }
    ensures stacks { IfOk result (λ t. t.stacks ≡ Some stack ∷ []) }
{
    let mut threads = Threads::new(alloc)?;
    match threads.add(stack) {
        Ok(_number) => Ok(threads),
        Err(_full) => unreachable!(),
    }
}

/// The own object of the first thread, with room for those of all.
pub(crate) fn first_own(alloc: Global) -> Result<Vec<Scalar>, AllocError>
    ensures owns { IfOk result (λ v. v.items ≡ scalars.Null ∷ []) }
    ensures room { IfOk result (λ v. 64 ≤ vec_capacity v) }
{
    let mut owns = Vec::with_capacity(alloc, MOST_THREADS)?;
    owns.push_reserved(Scalar::Null);
    Ok(owns)
}

/// The threads that hold a stack, in rising number.
#[tactic(auto, using(crate::proofs::Listing::listing))]
pub(crate) fn list_held(threads: &Threads, alloc: Global) -> Result<Listing<u32>, AllocError>
    requires { length threads.now.stacks ≡ length threads.now.states }
    ensures { IfOk result (λ l. l ≡ held_from 0 threads.now.stacks) }
{
    let mut held = Listing::new(alloc);
    for n in 0..threads.made() {
        if threads.holds(n) {
            held.push(n)?;
        }
    }
    Ok(held)
}

/// Binds a stack to a thread, with values or an exception, which it hands out.
fn bind(stack: ReadyStack, thread: u32, with_: Entered) -> (ActiveStack, Entered)
    requires waits { stack.waits ≡ stack.frames.top.waits }
    requires takes { Takes (frames_in stack.frames) with_ }
    ensures stack { result.0 ≡ record { number = stack.number; thread = thread; frames = stack.frames; passed = None } }
    ensures passed { result.1 ≡ with_ }
{
    match with_ {
        Entered::Values(values) => match stack.bind_values(thread, values) {
            Ok(mut bound) => {
                let entered = bound.entered();
                (bound, entered)
            }
            Err((_stack, _misfit)) => unreachable!(),
        },
        Entered::Thrown(exc) => match stack.bind_throw(thread, exc) {
            Ok(mut bound) => {
                let entered = bound.entered();
                (bound, entered)
            }
            Err((_stack, _uncaught)) => unreachable!(),
        },
    }
}

/// Takes a stack that is ready, for a thread that enters it.
pub(crate) fn enter(
    stacks: &mut Directory,
    to: u32,
    thread: u32,
    with_: Entered,
) -> (ActiveStack, Entered)
    requires { TakesThere (slice_get stacks.old to) with_ }
    ensures stack { bound_from to thread (slice_get stacks.old to) ≡ Some result.0 }
    ensures stacks { stacks.new ≡ slice_set stacks.old to (Active thread) }
    ensures passed { result.1 ≡ with_ }
{
    match stacks.take(to, thread) {
        Ok(stack) => bind(stack, thread, with_),
        Err(_not_ready) => unreachable!(),
    }
}

/// Exchanges the frames of the stack that a thread holds for others.
pub(crate) fn exchange(threads: &mut Threads, thread: u32, frames: &mut Frames)
    requires { IsSome (stack_of threads.old thread) }
    ensures threads { threads.new ≡ with_stack threads.old thread (with_frames frames.old (stack_of threads.old thread)) }
    ensures frames { frames_held (stack_of threads.old thread) ≡ Some frames.new }
{
    mem::swap(threads.stack_mut(thread).frames_mut(), frames);
}

/// The own object of a thread.
pub(crate) fn own_at(owns: &[Scalar], thread: u32) -> Scalar
    requires { thread < length owns.now }
    ensures { slice_get owns.now thread ≡ Some result }
{
    owns[thread as usize]
}

/// A thread has another own object from now on.
pub(crate) fn write_own(owns: &mut Vec<Scalar>, thread: u32, own: Scalar)
    requires { thread < length owns.old.items }
    ensures owns { owns.new.items ≡ slice_set owns.old.items thread own }
    ensures room { vec_capacity owns.new ≡ vec_capacity owns.old }
{
    owns[thread as usize] = own;
}

/// Makes a stack that is ready.
pub(crate) fn make(stacks: &mut Directory, frames: Frames, waits: Types) -> Result<u32, AllocError>
    ensures number { IfOk result (λ n. n ≡ length stacks.old) }
    ensures made { OnOk result (stacks.new ≡ stacks.old ++ Ready frames waits.members ∷ []) }
    ensures same { OnErr result (stacks.new ≡ stacks.old) }
{
    match stacks.make(frames, waits) {
        Ok(number) => Ok(number),
        Err((_frames, refusal)) => Err(refusal),
    }
}

/// Ends a stack that is ready.
pub(crate) fn kill(stacks: &mut Directory, id: u32) -> Frames
    requires { IsSome (ready_frames (slice_get stacks.old id)) }
    ensures frames { ready_frames (slice_get stacks.old id) ≡ Some result }
    ensures dead { stacks.new ≡ slice_set stacks.old id Dead }
{
    match stacks.kill(id) {
        Ok(frames) => frames,
        Err(_not_ready) => unreachable!(),
    }
}

/// A thread leaves its stack, which is ready from then on.
pub(crate) fn leave_ready(threads: &mut Threads, stacks: &mut Directory, thread: u32, waits: Types)
    requires { IsTakenBy (stack_of threads.old thread) stacks.old }
    ensures threads { threads.new ≡ with_stack threads.old thread None }
    ensures stacks { stacks.new ≡ ready_at (stack_of threads.old thread) waits.members stacks.old }
{
    let stack = threads.take_stack(thread);
    stacks.put_back(stack.unbind(waits));
}

/// A thread leaves its stack, which is dead from then on.
pub(crate) fn leave_dead(threads: &mut Threads, stacks: &mut Directory, thread: u32) -> Frames
    requires { IsTakenBy (stack_of threads.old thread) stacks.old }
    ensures frames { frames_held (stack_of threads.old thread) ≡ Some result }
    ensures threads { threads.new ≡ with_stack threads.old thread None }
    ensures stacks { stacks.new ≡ dead_at (stack_of threads.old thread) stacks.old }
{
    threads.take_stack(thread).kill(stacks)
}

/// A thread without a stack enters one.
pub(crate) fn sit(
    threads: &mut Threads,
    stacks: &mut Directory,
    thread: u32,
    to: u32,
    with_: Entered,
) -> Entered
    requires left { IsLeft (slice_get threads.old.states thread) }
    requires without { slice_get threads.old.stacks thread ≡ Some None }
    requires takes { TakesThere (slice_get stacks.old to) with_ }
    ensures threads { threads.new ≡ with_stack threads.old thread (bound_from to thread (slice_get stacks.old to)) }
    ensures stacks { stacks.new ≡ slice_set stacks.old to (Active thread) }
    ensures passed { result ≡ with_ }
{
    let (stack, passed) = enter(stacks, to, thread, with_);
    threads.give_stack(thread, stack);
    passed
}

/// The next thread enters a stack.
pub(crate) fn sit_last(
    threads: &mut Threads,
    stacks: &mut Directory,
    to: u32,
    with_: Entered,
) -> Entered
    requires few { length threads.old.states < 64 }
    requires takes { TakesThere (slice_get stacks.old to) with_ }
    ensures states { threads.new.states ≡ threads.old.states ++ ThreadState.Runs ∷ [] }
    ensures bound { threads.new.stacks ≡ threads.old.stacks ++ bound_from to (length threads.old.states) (slice_get stacks.old to) ∷ [] }
    ensures stacks { stacks.new ≡ slice_set stacks.old to (Active (length threads.old.states)) }
    ensures passed { result ≡ with_ }
{
    let (stack, passed) = enter(stacks, to, threads.made(), with_);
    match threads.add(stack) {
        Ok(_number) => passed,
        Err(_full) => unreachable!(),
    }
}
