// The threads that were made.
ghost use Rattle.std.specs.Prelude.{◌≡◌, ◌≢◌, ◌<◌, ◌≤◌, [], ◌∷◌, ◌++◌, None, Some, IsSome, is_some, IsTrue, IfSome, IfNone, IfOk, OnOk, OnErr, IfErr, length, slice_get, if◌then◌else◌, vec_len, vec_capacity};
ghost use Rattle.std.specs.Borrow.{sem};
ghost use Rattle.mu_threads.specs.Threads.{runnable_from, runnable_of, stack_of, IsLeft, with_stack, with_state};
ghost use Rattle.mu_threads.specs.Kept.{is_running};
ghost use Rattle.mu_threads.specs.Lending.{LendsStack};

use crate::state::ThreadState;
use stacks::ActiveStack;
use std::alloc::{AllocError, Global};
use std::marker::Model;

/// So many threads are made in a run at most.
const MOST_THREADS: usize = 64;

/// The threads that were made, by number, from 0 on, each with the stack that it holds. Of the calls `new` alone takes memory: it
/// makes room for all threads that there may be.
#[derive(Drop)]
pub struct Threads {
    states: Vec<ThreadState>,
    // None where it was taken, or the thread has ended.
    stacks: Vec<Option<ActiveStack>>,
    // The numbers of the threads that run, in rising order, so that a step does not look for them.
    runnable: Vec<u32>,
}

impl Model for Threads {
    ghost use Rattle.std.specs.Prelude.{length, vec_capacity};
    ghost use Rattle.mu_threads.specs.Threads as seen;

    ghost Value = { seen.Threads };

    ghost use Rattle.mu_threads.specs.Kept.{IsSound};

    ghost view = { λ t. record { states = t.states.items; stacks = t.stacks.items } };

    ghost invariant = { λ t. IsSound t.states.items (length t.stacks.items) t.runnable.items (vec_capacity t.states) (vec_capacity t.stacks) (vec_capacity t.runnable) };
}

/// Why a thread was not made.
#[derive(Drop)]
pub enum AddFault {
    /// As many were made as there may be. The stack comes back.
    ThreadsFull(ActiveStack),
}

impl Threads {
    /// No threads.
    pub fn new(alloc: Global) -> Result<Threads, AllocError>
        ensures states { IfOk result (λ t. t.states ≡ []) }
        ensures stacks { IfOk result (λ t. t.stacks ≡ []) }
    {
        Ok(Threads {
            states: Vec::with_capacity(alloc, MOST_THREADS)?,
            stacks: Vec::with_capacity(alloc, MOST_THREADS)?,
            runnable: Vec::with_capacity(alloc, MOST_THREADS)?,
        })
    }

    /// The number of the next thread. None comes exactly where 64 were made.
    pub fn next(&self) -> Option<u32>
        ensures next { IfSome result (λ n. n ≡ length self.now.states) }
        ensures below { IfSome result (λ n. n < 64) }
        ensures full { IfNone result (length self.now.states ≡ 64) }
    {
        if self.states.len() == MOST_THREADS {
            None
        } else {
            Some(self.states.len() as u32)
        }
    }

    /// Makes the next thread, which runs, on a stack that is bound to it. It is refused exactly where 64 were made; then the stack
    /// comes back, and nothing changes.
    pub fn add(&mut self, stack: ActiveStack) -> Result<u32, AddFault>
        requires { length self.old.states < 64 → stack.thread ≡ length self.old.states }
        ensures number { IfOk result (λ n. n ≡ length self.old.states) }
        ensures below { IfOk result (λ n. n < 64) }
        ensures states { OnOk result (self.new.states ≡ self.old.states ++ ThreadState.Runs ∷ []) }
        ensures stacks { OnOk result (self.new.stacks ≡ self.old.stacks ++ Some stack ∷ []) }

        ensures full { OnErr result (length self.old.states ≡ 64) }
        ensures stack_back { IfErr result (λ e. e ≡ AddFault.ThreadsFull stack) }
        ensures same { OnErr result (self.new ≡ self.old) }
    {
        let number = self.states.len();
        if number == MOST_THREADS {
            return Err(AddFault::ThreadsFull(stack));
        }
        self.states.push_reserved(ThreadState::Runs);
        self.stacks.push_reserved(Some(stack));
        list_runnable(&self.states, &mut self.runnable);
        Ok(number as u32)
    }

    /// How many threads were made.
    pub fn made(&self) -> u32
        ensures { result ≡ length self.now.states }
    {
        self.states.len() as u32
    }

    /// Whether a thread that was made holds its stack.
    pub fn holds(&self, thread: u32) -> bool
        requires { thread < length self.now.states }
        ensures { result ≡ is_some (stack_of self.now thread) }
    {
        self.stacks[thread as usize].is_some()
    }

    /// The stack of a thread that holds it.
    pub fn stack(&self, thread: u32) -> &ActiveStack
        requires { IsSome (stack_of self.now thread) }
        ensures { stack_of self.now thread ≡ Some result.now }
    {
        match &self.stacks[thread as usize] {
            Some(stack) => stack,
            None => unreachable!(),
        }
    }

    /// Lends the stack of a thread that holds it.
    pub fn stack_mut(&mut self, thread: u32) -> &mut ActiveStack
        requires { IsSome (stack_of self.old thread) }
        ensures* lends { sem 𝓛 (LendsStack self.entry thread result) }
        ensures is { stack_of self.old thread ≡ Some result.now }
    {
        match &mut self.stacks[thread as usize] {
            Some(stack) => stack,
            None => unreachable!(),
        }
    }

    /// Takes the stack of a thread that holds it. The thread goes on.
    pub fn take_stack(&mut self, thread: u32) -> ActiveStack
        requires { IsSome (stack_of self.old thread) }
        ensures stack { stack_of self.old thread ≡ Some result }
        ensures taken { self.new ≡ with_stack self.old thread None }
    {
        self.stacks[thread as usize].take().unwrap()
    }

    /// Gives a thread a stack that is bound to it, where its own was taken.
    pub fn give_stack(&mut self, thread: u32, stack: ActiveStack)
        requires left { IsLeft (slice_get self.old.states thread) }
        requires without { slice_get self.old.stacks thread ≡ Some None }
        requires bound { stack.thread ≡ thread }
        ensures { self.new ≡ with_stack self.old thread (Some stack) }
    {
        self.stacks[thread as usize] = Some(stack);
    }

    /// Ends a thread that is left and holds its stack, which it hands out.
    pub fn end(&mut self, thread: u32) -> ActiveStack
        requires left { IsLeft (slice_get self.old.states thread) }
        requires holds { IsSome (stack_of self.old thread) }
        ensures stack { stack_of self.old thread ≡ Some result }
        ensures ended { self.new ≡ with_state (with_stack self.old thread None) thread ThreadState.Ended }
    {
        self.set_state(thread, ThreadState::Ended);
        self.take_stack(thread)
    }

    /// Ends a thread whose stack was taken.
    pub fn drop_thread(&mut self, thread: u32)
        requires left { IsLeft (slice_get self.old.states thread) }
        requires without { slice_get self.old.stacks thread ≡ Some None }
        ensures { self.new ≡ with_state self.old thread ThreadState.Ended }
    {
        self.set_state(thread, ThreadState::Ended);
    }

    /// From now on a thread that is left waits, or runs.
    pub fn set_waiting(&mut self, thread: u32, waits: bool)
        requires { IsLeft (slice_get self.old.states thread) }
        ensures { self.new ≡ with_state self.old thread (if waits then ThreadState.Waits else ThreadState.Runs) }
    {
        let state = if waits {
            ThreadState::Waits
        } else {
            ThreadState::Runs
        };
        self.set_state(thread, state);
    }

    /// How many threads run. It takes constant time.
    pub fn runnable(&self) -> u32
        ensures { result ≡ length (runnable_of self.now) }
    {
        self.runnable.len() as u32
    }

    /// The n-th of the threads that run, in rising number, counted from 0. It takes constant time.
    pub fn nth_runnable(&self, n: u32) -> u32
        requires { n < length (runnable_of self.now) }
        ensures { slice_get (runnable_of self.now) n ≡ Some result }
    {
        self.runnable[n as usize]
    }

    /// A thread has another state from now on. It takes time in proportion to the threads.
    fn set_state(&mut self, thread: u32, state: ThreadState)
        requires { IsLeft (slice_get self.old.states thread) }
        ensures { self.new ≡ with_state self.old thread state }
    {
        self.states[thread as usize] = state;
        list_runnable(&self.states, &mut self.runnable);
    }
}

/// Lists the numbers of the threads that run, into room that is there.
#[tactic(auto, using(crate::proofs::Runnable::runnable))]
fn list_runnable(states: &[ThreadState], runnable: &mut Vec<u32>)
    requires few { length states.now ≤ 64 }
    requires room { 64 ≤ vec_capacity runnable.old }
    ensures is { runnable.new.items ≡ runnable_from 0 states.now }
    ensures room { 64 ≤ vec_capacity runnable.new }
{
    runnable.clear();
    for n in 0..states.len() {
        if runs(states, n) {
            runnable.push(n as u32).unwrap();
        }
    }
}

/// Whether a thread runs.
fn runs(states: &[ThreadState], n: usize) -> bool
    requires { n < length states.now }
    ensures { result ≡ is_running (slice_get states.now n) }
{
    matches!(states[n], ThreadState::Runs)
}
