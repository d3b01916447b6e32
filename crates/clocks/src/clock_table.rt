// Clocks by number, made as they are needed.
ghost use Rattle.std.specs.Prelude.{◌≡◌, ℕ, ◌+◌, ◌<◌, ◌≤◌, ◌==◌, cond, slice_index, OnOk};
ghost use Rattle.clocks.specs.Knowing.{known_by};
ghost use Rattle.clocks.specs.Tables.{table_at};

use crate::clock::Clock;
use std::alloc::{AllocError, Global};
use std::collections::HashMap;
use std::marker::Model;

/// A clock for each of some numbers; nothing for the others.
#[derive(Drop)]
pub struct ClockTable {
    clocks: HashMap<u32, Clock>,
}

impl Model for ClockTable {
    ghost use Rattle.std.specs.HashMap.{spare};
    ghost use Rattle.clocks.specs.Tables.{Table};

    ghost Value = { Table };

    ghost view = { λ a. record { entries = a.clocks.entries; spare = spare a.clocks } };
}

impl ClockTable {
    /// No clocks.
    pub fn new(alloc: Global) -> Self
        ensures { (k u : ℕ) → table_at result k u ≡ 0 }
    {
        ClockTable {
            clocks: HashMap::new(alloc),
        }
    }

    /// Makes room for that many more clocks.
    pub fn reserve(&mut self, count: usize) -> Result<(), AllocError>
        ensures same { (k u : ℕ) → table_at self.new k u ≡ table_at self.old k u }
        ensures room { OnOk result (count ≤ self.new.spare) }
        ensures spare { self.old.spare ≤ self.new.spare }
    {
        self.clocks.reserve(count)
    }

    /// Keeps a clock under a number, in the place of one that was there.
    pub fn put(&mut self, number: u32, clock: &Clock)
        requires { 0 < self.old.spare }
        ensures put { (k u : ℕ) → table_at self.new k u ≡ cond (k == number) (slice_index clock.now u) (table_at self.old k u) }
        ensures spare { self.old.spare ≤ self.new.spare + 1 }
    {
        if let Some(kept) = self.clocks.get_mut(&number) {
            *kept = *clock;
            return;
        }
        let kept: Result<_, _> = self.clocks.insert(number, *clock);
        kept.unwrap();
    }

    /// The clock under a number, if one is kept.
    pub fn of(&self, number: u32) -> Option<Clock>
        ensures { (u : ℕ) → known_by result u ≡ table_at self.now number u }
    {
        self.clocks.get(&number).copied()
    }
}
