// What a memory promises.
ghost use Rattle.std.specs.Prelude.{◌≡◌, ◌+◌, ◌<◌, ◌≤◌, true, None, Some, List, [], ◌∷◌, ◌++◌, length, slice_get, MatchOption, IsNone, IsSome, OnOk, OnErr};
ghost use Rattle.mu_values.specs.declared.scalars.Scalar.{Scalar};
ghost use Rattle.mem_axioms.specs.declared.types.Rule.{Rule};
ghost use Rattle.mem_axioms.specs.declared.types.Event.{Event};
ghost use Rattle.mem_axioms.specs.declared.types.Room.{Room};
ghost use Rattle.mem_axioms.specs.Races.{race};
ghost use Rattle.mem_axioms.specs.Choices.{choices};
ghost use Rattle.mem_axioms.specs.Objects.{initial_of, HasCell};
ghost use Rattle.mem_axioms.specs.EventFits.{EventFits, is_thread};
ghost use Rattle.mem_axioms.specs.Rooms.{HasRoom, one_less};
ghost use Rattle.mem_axioms.specs.Sound.{IsSound};

use crate::types::{Chosen, Event, Race, Wanted};
use mu_base::Steps;
use mu_values::{CellId, Value};
use std::alloc::AllocError;
use std::sync::ledger::Ledger;

/// The memory of a run. It says what an access may read, and whether an event races.
///
/// Contracts see a memory as the log of the run, the objects, the rule of release sequences, and the room that is left.
/// What a cell holds is not kept: it follows from the objects and the log. After each call the log meets the axioms, and
/// no two of its events race: that is the law `sound`.
pub trait Memory {
    /// The events of the run, newest first.
    ghost log: { Self → List Event };

    /// The initial scalars of the objects, in the order in which the objects were added.
    ghost objects: { Self → List (List Scalar) };

    /// The rule of release sequences. No call changes it.
    ghost rule: { Self → Rule };

    /// What is left of the room that the last `reserve` made.
    ghost room: { Self → Room };

    /// Adds an object with these initial scalars, under the next number. A cell names its object and its place by numbers of
    /// 32 bits, so objects and scalars past those can be added and not accessed. A refusal leaves all as it was. It takes the
    /// time of a push, and no memory beside the list of objects.
    fn add_object(&mut self, initial: Value) -> Result<(), AllocError>
        ensures added { OnOk result (objects self.new ≡ objects self.old ++ initial.members ∷ []) }
        ensures refused { OnErr result (objects self.new ≡ objects self.old) }
        ensures same_log { log self.new ≡ log self.old }
        ensures same_rule { rule self.new ≡ rule self.old }
        ensures same_room { room self.new ≡ room self.old };

    /// Makes room for that many events of one step: events of any kind, with accesses by the thread of the cell alone.
    /// What was left of earlier room is gone. After a refusal the room may be any.
    fn reserve(&mut self, thread: u32, cell: Option<CellId>, events: u32) -> Result<(), AllocError>
        ensures made { OnOk result (room self.new ≡ record { thread = thread; cell = cell; events = events }) }
        ensures same_log { log self.new ≡ log self.old }
        ensures same_objects { objects self.new ≡ objects self.old }
        ensures same_rule { rule self.new ≡ rule self.old };

    /// How many options an access by the thread has. It has at least one.
    fn options<L: Ledger>(
        &self,
        thread: u32,
        cell: CellId,
        wanted: &Wanted,
        steps: &mut Steps<L>,
    ) -> u32
        requires thread { is_thread (log self.now) thread ≡ true }
        requires cell { HasCell (objects self.now) cell }
        requires count { length (log self.now) + 1 < 4294967295 }
        ensures count { result ≡ length (choices (rule self.now) (initial_of (objects self.now)) (log self.now) thread cell wanted.now) }
        ensures some { 1 ≤ result };

    /// Option `n` of those that `options` counts, from 0.
    fn choose<L: Ledger>(
        &self,
        thread: u32,
        cell: CellId,
        wanted: &Wanted,
        n: u32,
        steps: &mut Steps<L>,
    ) -> Chosen
        requires thread { is_thread (log self.now) thread ≡ true }
        requires cell { HasCell (objects self.now) cell }
        requires count { length (log self.now) + 1 < 4294967295 }
        requires n { n < length (choices (rule self.now) (initial_of (objects self.now)) (log self.now) thread cell wanted.now) }
        ensures { slice_get (choices (rule self.now) (initial_of (objects self.now)) (log self.now) thread cell wanted.now) n ≡ Some result };

    /// Adds the event, which takes one from the room. Where it races it names the least earlier event that it races
    /// with, and leaves all as it was.
    fn commit<L: Ledger>(&mut self, event: Event, steps: &mut Steps<L>) -> Option<Race>
        requires fits { EventFits (rule self.old) (objects self.old) (log self.old) event }
        requires room { HasRoom (room self.old) event }
        requires count { length (log self.old) + 1 < 4294967295 }
        ensures race { MatchOption result (race (rule self.old) (log self.old) event ≡ None) (λ found. race (rule self.old) (log self.old) event ≡ Some found.earlier) }
        ensures added { IsNone result → log self.new ≡ event ∷ log self.old }
        ensures room { IsNone result → room self.new ≡ one_less (room self.old) }
        ensures raced { IsSome result → log self.new ≡ log self.old }
        ensures raced_room { IsSome result → room self.new ≡ room self.old }
        ensures same_objects { objects self.new ≡ objects self.old }
        ensures same_rule { rule self.new ≡ rule self.old };

    /// The log meets the axioms, and no two of its events race.
    ghost sound: { (memory : Self) → IsSound (rule memory) (objects memory) (log memory) };
}
