// Clocks by the numbers of events.
ghost use Rattle.std.specs.Prelude.{◌≡◌, ℕ, ◌+◌, ◌<◌, ◌≤◌, ◌==◌, cond, slice_index, OnOk};
ghost use Rattle.clocks.specs.Knowing.{known_by};
ghost use Rattle.clocks.specs.Tables.{table_at};

use crate::clock::Clock;
use crate::clock_list::ClockList;
use std::alloc::{AllocError, Global};
use std::collections::HashMap;
use std::marker::Model;

/// A clock for each of some events, by their numbers; nothing for the others. Such a clock never changes, so of each only
/// the numbers up to the last that is not 0 are kept.
#[derive(Drop)]
pub struct EventClocks {
    // For the number of an event the place of its clock.
    places: HashMap<u32, u32>,
    clocks: ClockList,
}

impl Model for EventClocks {
    ghost use Rattle.std.specs.Prelude.{min};
    ghost use Rattle.std.specs.HashMap.{spare};
    ghost use Rattle.clocks.specs.Tables.{Table};
    ghost use Rattle.clocks.specs.EventSpans.{spans_by, ArePlaced};

    ghost Value = { Table };

    ghost view = { λ a. record { entries = spans_by a.places.entries a.clocks; spare = min (spare a.places) a.clocks.spare } };

    ghost invariant = { λ a. ArePlaced a.places.entries a.clocks };
}

impl EventClocks {
    /// No clocks.
    pub fn new(alloc: Global) -> Self
        ensures { (k u : ℕ) → table_at result k u ≡ 0 }
    {
        EventClocks {
            places: HashMap::new(alloc),
            clocks: ClockList::new(alloc),
        }
    }

    /// Makes room for that many more clocks.
    pub fn reserve(&mut self, count: usize) -> Result<(), AllocError>
        ensures same { (k u : ℕ) → table_at self.new k u ≡ table_at self.old k u }
        ensures room { OnOk result (count ≤ self.new.spare) }
        ensures spare { self.old.spare ≤ self.new.spare }
    {
        self.places.reserve(count)?;
        self.clocks.reserve(count)
    }

    /// Keeps a clock under the number of an event. Where one was kept there, the number now has the place of the newer.
    pub fn put(&mut self, number: u32, clock: &Clock)
        requires { 0 < self.old.spare }
        ensures put { (k u : ℕ) → table_at self.new k u ≡ cond (k == number) (slice_index clock.now u) (table_at self.old k u) }
        ensures spare { self.old.spare ≤ self.new.spare + 1 }
    {
        let place = self.clocks.len();
        self.clocks.push(clock);
        let placed: Result<_, _> = self.places.insert(number, place);
        placed.unwrap();
    }

    /// The clock under the number of an event, if one is kept.
    pub fn of(&self, number: u32) -> Option<Clock>
        ensures { (u : ℕ) → known_by result u ≡ table_at self.now number u }
    {
        match self.places.get(&number) {
            Some(place) => self.clocks.of(*place),
            None => None,
        }
    }
}
