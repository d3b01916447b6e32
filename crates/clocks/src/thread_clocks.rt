// Clocks of threads.
ghost use Rattle.std.specs.Prelude.{◌≡◌, ℕ, ◌<◌, ◌≤◌, ◌==◌, [], if◌then◌else◌, max, length, slice_index, OnOk};
ghost use Rattle.clocks.specs.Tables.{row_at};

use crate::clock::Clock;
use std::alloc::{AllocError, Global};
use std::marker::Model;

/// A clock for each of the threads 0 to 63, once there was room for them; nothing before.
#[derive(Drop)]
pub struct ThreadClocks {
    clocks: Vec<Clock>,
    // What is lent where there is no clock yet.
    nothing: Clock,
}

impl Model for ThreadClocks {
    ghost use Rattle.std.specs.Prelude.{ℕ, List, ◌≡◌, replicate};

    ghost Value = { List (List ℕ) };

    ghost view = { λ a. a.clocks.items };

    ghost invariant = { λ a. a.nothing ≡ replicate 64 0 };
}

impl ThreadClocks {
    /// No clocks. It takes no memory yet.
    pub fn new(alloc: Global) -> Self
        ensures { result ≡ [] }
    {
        ThreadClocks {
            clocks: Vec::new(alloc),
            nothing: Clock::new(),
        }
    }

    /// Makes the clocks of all threads, which know nothing.
    pub fn reserve(&mut self) -> Result<(), AllocError>
        ensures same { (t u : ℕ) → row_at self.new t u ≡ row_at self.old t u }
        ensures there { OnOk result (64 ≤ length self.new) }
        ensures len { length self.old ≤ length self.new }
    {
        make_clocks(&mut self.clocks)
    }

    /// What a thread knows.
    pub fn of(&self, thread: u32) -> &Clock
        ensures { (u : ℕ) → slice_index result.now u ≡ row_at self.now thread u }
    {
        let thread = thread as usize;
        if thread < self.clocks.len() {
            &self.clocks[thread]
        } else {
            &self.nothing
        }
    }

    /// From now on a thread knows what the clock does.
    pub fn set(&mut self, thread: u32, clock: &Clock)
        requires { thread < length self.old }
        ensures set { (t u : ℕ) → row_at self.new t u ≡ (if t == thread then slice_index clock.now u else row_at self.old t u) }
        ensures len { length self.new ≡ length self.old }
    {
        self.clocks[thread as usize] = *clock;
    }

    /// From now on a thread knows what the clock does too.
    pub fn join(&mut self, thread: u32, clock: &Clock)
        requires { thread < length self.old }
        ensures joined { (t u : ℕ) → row_at self.new t u ≡ (if t == thread then max (row_at self.old t u) (slice_index clock.now u) else row_at self.old t u) }
        ensures len { length self.new ≡ length self.old }
    {
        self.clocks[thread as usize].join(clock);
    }
}

/// Adds clocks that know nothing up to 64.
fn make_clocks(clocks: &mut Vec<Clock>) -> Result<(), AllocError>
    ensures same { (t u : ℕ) → row_at clocks.new.items t u ≡ row_at clocks.old.items t u }
    ensures there { OnOk result (64 ≤ length clocks.new.items) }
    ensures len { length clocks.old.items ≤ length clocks.new.items }
{
    while clocks.len() < 64 {
        clocks.push(Clock::new())?;
    }
    Ok(())
}
