// What is known of the events so far.
ghost use Rattle.std.specs.Prelude.{◌≡◌, true, false, ◌+◌, ◌<◌, Bool, List, ◌∷◌, Some, None, length, OnOk, MatchOption};
ghost use Rattle.mem_axioms.specs.Logs.{least_event};
ghost use Rattle.mem_axioms.specs.HappensBefore.{happens_before};
ghost use Rattle.mem_axioms.specs.Form.{fits_form_alone};
ghost use Rattle.mem_axioms.specs.Races.{race};
ghost use Rattle.mem_axioms.specs.declared.types.Rule.{Rule};
ghost use Rattle.mem_axioms.specs.declared.types.Event.{Event};
ghost use Rattle.verdicts.specs.Verdicts.{least_pair, breaks_coherence};
ghost use Rattle.verdicts.specs.Laws.{IsFaultless};
ghost use Rattle.verdicts.specs.Searches.{reads_below, Extends};
ghost use Rattle.mem_axioms.specs.Threads.{HasFewThreads};

use mem_axioms::{Event, Log};
use std::alloc::AllocError;

/// A pair of SEQ_CST events that breaks axiom 3: by that axiom `a` must come before `b` in the log, yet its number is `b`'s or higher.
#[derive(Clone, Copy)]
pub struct Pair {
    pub a: u32,
    pub b: u32,
}

/// What is known of the events so far, a log without faults.
pub trait Past {
    ghost log: { Self → List Event };

    ghost rule: { Self → Rule };

    /// Whether the event fits the form of a log.
    fn fits(&self, event: &Event) -> bool
        requires { IsFaultless (rule self.now) (log self.now) }
        ensures { result ≡ fits_form_alone (log self.now) event.now };

    /// Whether the event reads a position below its floor.
    fn is_below(&self, event: &Event) -> bool
        requires faultless { IsFaultless (rule self.now) (log self.now) }
        requires fits { fits_form_alone (log self.now) event.now ≡ true }
        ensures { result ≡ reads_below (rule self.now) (log self.now) event.now };

    /// The least event that races with this one.
    fn race(&self, event: &Event) -> Option<u32>
        requires faultless { IsFaultless (rule self.now) (log self.now) }
        requires fits { fits_form_alone (log self.now) event.now ≡ true }
        requires below { reads_below (rule self.now) (log self.now) event.now ≡ false }
        ensures { result ≡ race (rule self.now) (log self.now) event.now };

    /// The least event with which this one breaks axiom 1. `whole` is the log that is judged: these events, and newer ones.
    fn older(&self, whole: &Log, event: &Event) -> Option<u32>
        requires part { Extends whole.now (log self.now) }
        requires faultless { IsFaultless (rule self.now) (log self.now) }
        requires fits { fits_form_alone (log self.now) event.now ≡ true }
        ensures { result ≡ least_event (breaks_coherence (rule self.now) (log self.now) event.now) (log self.now) };

    /// The pair that breaks axiom 3 where this event comes next. `whole` is the log that is judged: these events, and newer ones.
    fn pair(&self, whole: &Log, event: &Event) -> Option<Pair>
        requires part { Extends whole.now (log self.now) }
        requires faultless { IsFaultless (rule self.now) (log self.now) }
        requires fits { fits_form_alone (log self.now) event.now ≡ true }
        requires below { reads_below (rule self.now) (log self.now) event.now ≡ true }
        ensures { MatchOption result (least_pair (rule self.now) (event.now ∷ log self.now) ≡ None) (λ p. least_pair (rule self.now) (event.now ∷ log self.now) ≡ Some (p.b, p.a)) };

    /// Adds the event. An error comes only where no memory was found, and then nothing is known of the log any more.
    fn add(&mut self, event: Event) -> Result<(), AllocError>
        requires faultless { IsFaultless (rule self.old) (event ∷ log self.old) }
        requires few { HasFewThreads event }
        requires count { length (log self.old) + 1 < 4294967295 }
        ensures added { OnOk result (log self.new ≡ event ∷ log self.old) }
        ensures rule { rule self.new ≡ rule self.old };
}
