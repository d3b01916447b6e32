// Threads on their stacks.
ghost use Rattle.std.specs.Prelude.{◌≡◌, ◌<◌, List, [], ◌∷◌, ◌++◌, Some, None, IfOk, OnOk, OnErr, IfSome, IfNone, IsSome, IsSomeAnd, nat_lt, length, slice_get, slice_set, option_map};
ghost use Rattle.frames.specs.Activations.{Activation};
ghost use Rattle.frames.specs.Chains.{frames_in};
ghost use Rattle.mu_values.specs.declared.scalars.Scalar.TheVariants as scalars;
ghost use Rattle.mu_model.specs.Configuration.{Active, Ready, Dead};
ghost use Rattle.mu_model.specs.Changes.{changed};
ghost use Rattle.mu_model.specs.EnteringStacks.{on_stack};
ghost use Rattle.mu_model.specs.Step.{threads_from, with_own};
ghost use Rattle.std.specs.List.{find};
ghost use Rattle.futex.specs.Waiting.{is_of, without, cell_of, timed_cell_of, threads_of, oldest_at};
ghost use Rattle.mu_model.specs.Turns.{active_on};
ghost use Rattle.futex.specs.Kept.{AreApart};
ghost use Rattle.seats.specs.Seats.{IsOn, IsReady, IsActiveOrDead, IsReadyFor, WaitsFor, seat_of, runnable_of, left_ready, bound_to};

use crate::asking::{Asks, show};
use crate::moves::{
    exchange, first, first_own, first_thread, kill, leave_dead, leave_ready, list_held, make,
    own_at, sit, sit_last, write_own,
};
use crate::waits::{run_again, run_all_again, wait};
use frames::Frames;
use futex::{Waiters, Woken};
use mu_base::Types;
use mu_threads::Threads;
use mu_values::{CellId, Scalar};
use stacks::{Directory, Entered, ReadyStack};
use std::alloc::{AllocError, Global};
use std::marker::Model;
use text_forms::Listing;

/// The threads that were made, each on its stack, the stacks, and the threads that wait. Contracts see them as the machine does. Of
/// the calls `new`, `left`, `make` and `wait` alone take memory.
#[derive(Drop)]
pub struct Seats {
    threads: Threads,
    stacks: Directory,
    // By thread, with room for all.
    owns: Vec<Scalar>,
    waiters: Waiters,
}

impl Model for Seats {
    ghost use Rattle.std.specs.Prelude.{vec_capacity};
    ghost use Rattle.seats.specs.Seats as seen;

    ghost Value = { seen.Seats };

    ghost use Rattle.seats.specs.Kept.{seats_seen, IsSound};

    ghost view = { λ s. seats_seen s.threads.stacks s.owns.items s.stacks s.waiters.waiters };

    ghost invariant = { λ s. IsSound s.threads.states s.threads.stacks s.stacks s.owns.items (vec_capacity s.owns) s.waiters.waiters };
}

impl Seats {
    /// Thread 0 on stack 0, which has these frames, and with NULL as its own object. It makes all room that later calls need for
    /// threads. It is refused only when out of memory.
    pub fn new(alloc: Global, frames: Frames) -> Result<Seats, AllocError>
        ensures { IfOk result (λ s. s ≡ record { threads = Some (record { stack = 0; own = scalars.Null }) ∷ []; stacks = Active 0 (frames_in frames) ∷ []; waiters = [] }) }
    {
        let mut stacks = Directory::new(alloc);
        let stack = first(alloc, &mut stacks, frames)?;
        let threads = first_thread(alloc, stack)?;
        let owns = first_own(alloc)?;
        Ok(Seats {
            threads,
            stacks,
            owns,
            waiters: Waiters::new(alloc),
        })
    }

    /// How many threads may make the next step. It takes constant time.
    pub fn runnable(&self) -> u32
        ensures { result ≡ length (runnable_of self.now) }
    {
        self.threads.runnable()
    }

    /// The n-th of the threads that may make the next step, in rising number, counted from 0. It takes constant time.
    pub fn nth_runnable(&self, n: u32) -> u32
        requires { n < length (runnable_of self.now) }
        ensures { slice_get (runnable_of self.now) n ≡ Some result }
    {
        self.threads.nth_runnable(n)
    }

    /// The threads that are left, in rising number. It is refused only when out of memory.
    pub fn left(&self, alloc: Global) -> Result<Listing<u32>, AllocError>
        ensures { IfOk result (λ l. l ≡ threads_from 0 self.now.threads) }
    {
        list_held(&self.threads, alloc)
    }

    /// The stack that a thread is on.
    pub fn stack_of(&self, thread: u32) -> u32
        requires { IsSome (seat_of self.now thread) }
        ensures on { IsOn self.now thread result }
        ensures active { IsSomeAnd (slice_get self.now.stacks result) (λ k. IsSome (active_on thread k)) }
    {
        self.threads.stack(thread).number()
    }

    /// The own object of a thread.
    pub fn own(&self, thread: u32) -> Scalar
        requires { IsSome (seat_of self.now thread) }
        ensures { IsSomeAnd (seat_of self.now thread) (λ t. t.own ≡ result) }
    {
        own_at(&self.owns, thread)
    }

    /// A thread has another own object from now on.
    pub fn set_own(&mut self, thread: u32, own: Scalar)
        requires { IsSome (seat_of self.old thread) }
        ensures { self.new ≡ record self.old { threads = changed (option_map (with_own own)) thread self.old.threads } }
    {
        write_own(&mut self.owns, thread, own);
    }

    /// The frames of a thread's stack.
    pub fn frames(&self, thread: u32, stack: u32) -> &Frames
        requires { IsOn self.now thread stack }
        ensures { slice_get self.now.stacks stack ≡ Some (Active thread (frames_in result.now)) }
    {
        self.threads.stack(thread).frames()
    }

    /// Exchanges the frames of a thread's stack for others.
    pub fn exchange(&mut self, thread: u32, stack: u32, frames: &mut Frames)
        requires { IsOn self.old thread stack }
        ensures seats { self.new ≡ record self.old { stacks = slice_set self.old.stacks stack (Active thread (frames_in frames.old)) } }
        ensures frames { slice_get self.old.stacks stack ≡ Some (Active thread (frames_in frames.new)) }
    {
        exchange(&mut self.threads, thread, frames);
    }

    /// How many stacks were made.
    pub fn count(&self) -> u32
        ensures { result ≡ length self.now.stacks }
    {
        self.stacks.count()
    }

    /// A stack that is ready, where it stands. None comes exactly where it is active or dead.
    pub fn ready(&self, id: u32) -> Option<&ReadyStack>
        requires { id < length self.now.stacks }
        ensures some { IfSome result (λ r. slice_get self.now.stacks id ≡ Some (Ready (frames_in r.now.frames))) }
        ensures waits { IfSome result (λ r. r.now.waits ≡ r.now.frames.top.waits) }
        ensures number { IfSome result (λ r. r.now.number ≡ id) }
        ensures none { IfNone result (IsSomeAnd (slice_get self.now.stacks id) IsActiveOrDead) }
    {
        self.stacks.ready(id)
    }

    /// Makes a stack under the next number, ready for what its top frame waits for. It is refused only when out of memory, also
    /// where there would be 2^32 stacks; then nothing changes, and the frames are dropped.
    pub fn make(&mut self, frames: Frames, waits: Types) -> Result<u32, AllocError>
        requires { waits.members ≡ frames.top.waits }
        ensures number { IfOk result (λ n. n ≡ length self.old.stacks) }
        ensures made { OnOk result (self.new ≡ record self.old { stacks = self.old.stacks ++ Ready (frames_in frames) ∷ [] }) }
        ensures same { OnErr result (self.new ≡ self.old) }
    {
        make(&mut self.stacks, frames, waits)
    }

    /// A stack that is ready is dead from now on, and its frames come back.
    pub fn kill(&mut self, id: u32) -> Frames
        requires { IsReady (slice_get self.old.stacks id) }
        ensures frames { slice_get self.old.stacks id ≡ Some (Ready (frames_in result)) }
        ensures dead { self.new ≡ record self.old { stacks = slice_set self.old.stacks id Dead } }
    {
        kill(&mut self.stacks, id)
    }

    /// A thread ends, and its stack is dead from now on. The frames of that come back.
    pub fn end(&mut self, thread: u32, stack: u32) -> Frames
        requires { IsOn self.old thread stack }
        ensures frames { slice_get self.old.stacks stack ≡ Some (Active thread (frames_in result)) }
        ensures ended { self.new ≡ record self.old { threads = slice_set self.old.threads thread None; stacks = slice_set self.old.stacks stack Dead } }
    {
        let frames = leave_dead(&mut self.threads, &mut self.stacks, thread);
        self.threads.drop_thread(thread);
        frames
    }

    /// A thread leaves its stack, which is ready from then on for what its top frame waits for, and enters another one with what
    /// that takes, which comes back.
    pub fn leave_to(
        &mut self,
        thread: u32,
        stack: u32,
        waits: Types,
        to: u32,
        with_: Entered,
    ) -> Entered
        requires on { IsOn self.old thread stack }
        requires waits { WaitsFor (slice_get self.old.stacks stack) waits.members }
        requires takes { IsReadyFor (slice_get self.old.stacks to) with_ }
        ensures passed { result ≡ with_ }
        ensures seats { self.new ≡ record self.old { threads = changed (option_map (on_stack to)) thread self.old.threads; stacks = changed (bound_to thread) to (changed left_ready stack self.old.stacks) } }
    {
        leave_ready(&mut self.threads, &mut self.stacks, thread, waits);
        sit(&mut self.threads, &mut self.stacks, thread, to, with_)
    }

    /// A thread leaves its stack, which is dead from then on, and enters another one with what that takes. The frames of its own
    /// stack come back, and what was passed.
    pub fn end_to(&mut self, thread: u32, stack: u32, to: u32, with_: Entered) -> (Frames, Entered)
        requires on { IsOn self.old thread stack }
        requires takes { IsReadyFor (slice_get self.old.stacks to) with_ }
        ensures frames { slice_get self.old.stacks stack ≡ Some (Active thread (frames_in result.0)) }
        ensures passed { result.1 ≡ with_ }
        ensures seats { self.new ≡ record self.old { threads = changed (option_map (on_stack to)) thread self.old.threads; stacks = changed (bound_to thread) to (slice_set self.old.stacks stack Dead) } }
    {
        let frames = leave_dead(&mut self.threads, &mut self.stacks, thread);
        let passed = sit(&mut self.threads, &mut self.stacks, thread, to, with_);
        (frames, passed)
    }

    /// Shows a thread's stack, as one that waits for values of these types. Nothing changes but what was asked, and the frames of the stack.
    pub fn ask<A: Asks>(&mut self, thread: u32, stack: u32, waits: Types, asks: &mut A)
        requires on { IsOn self.old thread stack }
        requires takes { (frames : List Activation) → slice_get self.old.stacks stack ≡ Some (Active thread frames) → A.takes asks.old frames waits.members }
        ensures { (frames : List Activation) → slice_get self.old.stacks stack ≡ Some (Active thread frames)
            → (after : List Activation) × (self.new ≡ record self.old { stacks = slice_set self.old.stacks stack (Active thread after) }) × A.asked asks.old stack frames waits.members asks.new after }
    {
        show(&mut self.threads, thread, waits, asks);
    }

    /// A thread ends, and its stack is ready from then on for what its top frame waits for.
    pub fn exit(&mut self, thread: u32, stack: u32, waits: Types)
        requires on { IsOn self.old thread stack }
        requires waits { WaitsFor (slice_get self.old.stacks stack) waits.members }
        ensures { self.new ≡ record self.old { threads = slice_set self.old.threads thread None; stacks = changed left_ready stack self.old.stacks } }
    {
        leave_ready(&mut self.threads, &mut self.stacks, thread, waits);
        self.threads.drop_thread(thread);
    }

    /// How many threads were made. It takes constant time.
    pub fn made(&self) -> u32
        ensures { result ≡ length self.now.threads }
    {
        self.threads.made()
    }

    /// Whether one more thread may be made. There are 64 at most.
    pub fn has_room(&self) -> bool
        ensures { result ≡ nat_lt (length self.now.threads) 64 }
    {
        self.threads.made() < 64
    }

    /// Makes the next thread, which enters a stack with what that takes, and has this own object. What was passed comes back.
    pub fn start(&mut self, to: u32, own: Scalar, with_: Entered) -> Entered
        requires few { length self.old.threads < 64 }
        requires takes { IsReadyFor (slice_get self.old.stacks to) with_ }
        ensures passed { result ≡ with_ }
        ensures seats { self.new ≡ record self.old { threads = self.old.threads ++ Some (record { stack = to; own = own }) ∷ []; stacks = changed (bound_to (length self.old.threads)) to self.old.stacks } }
    {
        let passed = sit_last(&mut self.threads, &mut self.stacks, to, with_);
        self.owns.push_reserved(own);
        passed
    }

    /// From now on a thread that goes on waits at a cell, with a limit or without. It is refused only when out of memory; then
    /// nothing changes.
    pub fn wait(&mut self, thread: u32, cell: CellId, timed: bool) -> Result<(), AllocError>
        requires there { IsSome (seat_of self.old thread) }
        requires goes_on { find (is_of thread) self.old.waiters ≡ None }
        ensures ok { OnOk result (self.new ≡ record self.old { waiters = self.old.waiters ++ record { thread = thread; cell = cell; timed = timed } ∷ [] }) }
        ensures err { OnErr result (self.new ≡ self.old) }
    {
        wait(&mut self.threads, &mut self.waiters, thread, cell, timed)
    }

    /// The cell at which a thread waits; None exactly where it does not wait.
    pub fn waiting(&self, thread: u32) -> Option<CellId>
        ensures { result ≡ cell_of (find (is_of thread) self.now.waiters) }
    {
        self.waiters.waiting(thread)
    }

    /// The cell at which a thread waits with a limit; None exactly where it does not wait, or waits without one.
    pub fn timed(&self, thread: u32) -> Option<CellId>
        ensures { result ≡ timed_cell_of (find (is_of thread) self.now.waiters) }
    {
        self.waiters.timed(thread)
    }

    /// A thread that waits does so no more. The others wait on in their order.
    pub fn stop(&mut self, thread: u32)
        requires { IsSome (find (is_of thread) self.old.waiters) }
        ensures { IfSome (find (is_of thread) self.old.waiters) (λ w. self.new ≡ record self.old { waiters = without (w ∷ []) self.old.waiters }) }
    {
        self.waiters.leave(thread);
        run_again(&mut self.threads, thread);
    }

    /// The threads that `wake` would wake. Nothing changes.
    pub fn waking(&self, cell: CellId, many: u32) -> Woken
        ensures { result ≡ threads_of (oldest_at cell many self.now.waiters) }
    {
        self.waiters.waking(cell, many)
    }

    /// Each thread waits once at most.
    pub fn waiters_are_apart(&self)
        ensures { AreApart self.now.waiters }
    {
        self.waiters.are_apart();
    }

    /// Wakes the threads that have waited at a cell longest: so many, or all where fewer wait there. These wait no more; the others
    /// wait on in their order.
    pub fn wake(&mut self, cell: CellId, many: u32) -> Woken
        ensures woken { result ≡ threads_of (oldest_at cell many self.old.waiters) }
        ensures others { self.new ≡ record self.old { waiters = without (oldest_at cell many self.old.waiters) self.old.waiters } }
    {
        let woken = self.waiters.wake(cell, many);
        run_all_again(&mut self.threads, woken.as_slice());
        woken
    }
}
