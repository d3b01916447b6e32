// The events of a run.
ghost use Rattle.std.specs.Prelude.{◌≡◌, ◌+◌, ◌<◌, [], ◌∷◌, Some, length, OnOk, OnErr};
ghost use Rattle.mem_axioms.specs.Logs.{event_at};

use crate::types::Event;
use std::alloc::{AllocError, Global};
use std::marker::Model;

/// A list of events. Contracts see it newest first; an event's number is how many events came before it.
#[derive(Drop)]
pub struct Log {
    // In the order in which they were added.
    events: Vec<Event>,
}

impl Model for Log {
    ghost use Rattle.std.specs.Prelude.{◌<◌, ◌^◌, List, reverse, length};
    ghost use Rattle.mem_axioms.specs.declared.types.Event.{Event};

    ghost Value = { List Event };

    ghost view = { λ a. reverse a.events.items };

    ghost invariant = { λ a. length a.events.items < 4294967295 };
}

impl Log {
    /// A log with no events. It takes no memory yet.
    pub fn new(alloc: Global) -> Log
        ensures { result ≡ [] }
    {
        Log {
            events: Vec::new(alloc),
        }
    }

    /// How many events it has.
    pub fn len(&self) -> u32
        ensures { result ≡ length self.now }
    {
        self.events.len() as u32
    }

    /// Adds an event. A refusal leaves the log as it was.
    pub fn push(&mut self, event: Event) -> Result<(), AllocError>
        requires { length self.old + 1 < 4294967295 }
        ensures ok { OnOk result (self.new ≡ event ∷ self.old) }
        ensures err { OnErr result (self.new ≡ self.old) }
    {
        self.events.push(event)?;
        Ok(())
    }

    /// The event with that number, for a number below `len`.
    pub fn event(&self, n: u32) -> &Event
        requires { n < length self.now }
        ensures { event_at self.now n ≡ Some result.now }
    {
        &self.events[n as usize]
    }
}
