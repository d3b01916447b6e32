// Verdicts.

/// What is first wrong with a log. Numbers are those of events, from 0 on.
#[derive(Clone, Copy, Debug, PartialEq, Eq)]
pub enum Verdict {
    /// Nothing: the log meets the axioms, and no two of its events race. It has so many events.
    Yes { events: u32 },
    /// The log up to the event has not the form of a log.
    Form { event: u32 },
    /// Axiom 1 is broken: the event reads a position below that of the earlier one, which happens before it. `earlier` is the least such.
    Axiom1 { earlier: u32, event: u32 },
    /// Axiom 3 is broken: of the SEQ_CST events `a` must come before `b`, and does not. `b` is the least such, and `a` the least for it.
    Axiom3 { a: u32, b: u32 },
    /// The two events race. `earlier` is the least that races with the event.
    Race { earlier: u32, event: u32 },
}
