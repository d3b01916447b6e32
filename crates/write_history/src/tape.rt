// The events of a run.
ghost use Rattle.std.specs.Prelude.{◌≡◌, ◌+◌, ◌<◌, ◌≤◌, [], ◌∷◌, OnOk};

use crate::past::Past;
use mem_axioms::Event;
use std::alloc::{AllocError, Global};
use std::marker::Model;

/// All events of a run. Contracts see the list of them, newest first, and `spare`, the number of further events that
/// `push` takes. No call reads them, so they take no memory: only proofs see them, and `reserve` never refuses.
#[derive(Drop)]
pub struct Tape {
    events: Past<Event>,
    spare: usize,
}

impl Model for Tape {
    ghost use Rattle.write_history.specs.Rooms.{Events};

    ghost Value = { Events };

    ghost view = { λ a. record { events = a.events.items; spare = a.spare } };
}

impl Tape {
    /// A tape with no events. It takes no memory yet.
    pub fn new(_alloc: Global) -> Self
        ensures { result.events ≡ [] }
    {
        Tape {
            events: Past::new(),
            spare: 0,
        }
    }

    /// Makes room for one more event. A refusal leaves the events as they were.
    pub fn reserve(&mut self) -> Result<(), AllocError>
        ensures events { self.new.events ≡ self.old.events }
        ensures room { OnOk result (0 < self.new.spare) }
        ensures spare { self.old.spare ≤ self.new.spare }
    {
        self.reserve_many(1)
    }

    /// Makes room for that many more. A refusal leaves the events as they were.
    pub fn reserve_many(&mut self, count: usize) -> Result<(), AllocError>
        ensures events { self.new.events ≡ self.old.events }
        ensures room { OnOk result (count ≤ self.new.spare) }
        ensures spare { self.old.spare ≤ self.new.spare }
    {
        self.spare = self.spare.max(count);
        Ok(())
    }

    /// Adds the next event, into room that is there.
    pub fn push(&mut self, event: Event)
        requires { 0 < self.old.spare }
        ensures events { self.new.events ≡ event ∷ self.old.events }
        ensures spare { self.old.spare ≤ self.new.spare + 1 }
    {
        self.events = self.events.and(&event);
        self.spare -= 1;
    }
}
