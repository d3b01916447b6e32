// The events that a verdict names.
ghost use Rattle.std.specs.Prelude.{true, MatchOption, ◌≡◌, ◌++◌, ◌<◌, ◌≤◌, ℕ, Bool, List, ◌∷◌, length, Some, None};
ghost use Rattle.mem_axioms.specs.Events.{is_read, is_seq_cst, order_of};
ghost use Rattle.mem_axioms.specs.Logs.{event_at, least_event};
ghost use Rattle.mem_axioms.specs.Axioms.{reads_older};
ghost use Rattle.mem_axioms.specs.HappensBefore.{happens_before};
ghost use Rattle.mem_axioms.specs.declared.types.Rule.{Rule};
ghost use Rattle.mem_axioms.specs.declared.types.Event.{Event};
ghost use Rattle.verdicts.specs.Verdicts.{breaks_coherence, least_pair};
ghost use Rattle.verdicts.specs.Searches.{Extends, comes_from, passed_by};
ghost use Rattle.verdicts.specs.Laws.{IsFaultless, is_b};
ghost use Rattle.mem_axioms.specs.PassedOver.{has_seq_cst_from};

use crate::laws::pair_is_of_the_read;
use crate::past::Pair;
use mem_axioms::event_facts::{fence, is_of_cell, order_in, position_in, seq_cst};
use mem_axioms::{Event, Kind, Log, Mode};

/// What is known of the event that comes next, by the log before it.
pub trait Knows {
    ghost log: { Self → List Event };

    ghost rule: { Self → Rule };

    ghost event: { Self → Event };

    /// Whether the earlier event happens before it.
    fn knows(&self, number: u32, earlier: &Event) -> bool
        requires { event_at (log self.now) number ≡ Some earlier.now }
        ensures { result ≡ happens_before (rule self.now) (event self.now ∷ log self.now) number (length (log self.now)) };

    /// Whether the earlier event, which is SEQ_CST, is an access of a position above the one that the event reads, or a fence that such an
    /// access happens before.
    fn has_passed(&self, number: u32, earlier: &Event) -> bool
        requires there { event_at (log self.now) number ≡ Some earlier.now }
        requires seq_cst { is_seq_cst (order_of earlier.now) ≡ true }
        ensures { result ≡ passed_by (rule self.now) (log self.now) (event self.now) number earlier.now };

    /// Whether the event is SEQ_CST, or a SEQ_CST fence from that number on happens before it.
    fn has_from(&self, number: u32) -> bool
        ensures { result ≡ has_seq_cst_from (rule self.now) (log self.now) (event self.now) number };
}

// Whether the event is a read.
fn is_read(event: &Event) -> bool
    ensures { result ≡ is_read event.now }
{
    matches!(
        event.kind,
        Kind::Access {
            mode: Mode::Read,
            ..
        }
    )
}

/// Whether the event reads a position below that of the earlier one.
pub fn passes_over(event: &Event, earlier: &Event) -> bool
    ensures { result ≡ reads_older event.now earlier.now }
{
    match earlier.kind {
        Kind::Access { cell, position, .. } => {
            is_of_cell(event, cell) && is_read(event) && position_in(event) < position
        }
        _ => false,
    }
}

/// The least event with which the next one, `event`, breaks axiom 1. The log has `n` events before that, and may go on after it.
pub fn older<K: Knows>(next: &K, log: &Log, event: &Event, n: u32) -> Option<u32>
    requires event { event.now ≡ K.event next.now }
    requires part { Extends log.now (K.log next.now) }
    requires number { n ≡ length (K.log next.now) }
    ensures { result ≡ least_event (breaks_coherence (K.rule next.now) (K.log next.now) event.now) (K.log next.now) }
{
    for i in 0..n {
        let earlier = log.event(i);
        if passes_over(event, earlier) && next.knows(i, earlier) {
            return Some(i);
        }
    }
    None
}

// The least event b of a pair that breaks axiom 3.
fn first_b<K: Knows>(next: &K, log: &Log, event: &Event, n: u32) -> Option<u32>
    requires event { event.now ≡ K.event next.now }
    requires part { Extends log.now (K.log next.now) }
    requires number { n ≡ length (K.log next.now) }
    ensures { result ≡ least_event (is_b (K.rule next.now) (K.log next.now) event.now) (K.log next.now) }
{
    for b in 0..n {
        let earlier = log.event(b);
        if seq_cst(order_in(earlier)) && next.has_passed(b, earlier) && next.has_from(b) {
            return Some(b);
        }
    }
    None
}

// The least event from b on that must come before b.
fn first_a<K: Knows>(next: &K, log: &Log, event: &Event, n: u32, b: u32) -> Option<u32>
    requires event { event.now ≡ K.event next.now }
    requires part { Extends log.now (K.log next.now) }
    requires number { n ≡ length (K.log next.now) }
    requires within { b ≤ n }
    ensures { result ≡ least_event (comes_from (K.rule next.now) (K.log next.now) event.now b) (event.now ∷ K.log next.now) }
{
    for a in b..n {
        let earlier = log.event(a);
        if seq_cst(order_in(earlier)) && fence(earlier) && next.knows(a, earlier) {
            return Some(a);
        }
    }
    if seq_cst(order_in(event)) {
        Some(n)
    } else {
        None
    }
}

/// The pair that breaks axiom 3 where the read `event` comes next. The log has `n` events before that, and may go on after it.
pub fn pair<K: Knows>(next: &K, log: &Log, event: &Event, n: u32) -> Option<Pair>
    requires event { event.now ≡ K.event next.now }
    requires part { Extends log.now (K.log next.now) }
    requires number { n ≡ length (K.log next.now) }
    requires faultless { IsFaultless (K.rule next.now) (K.log next.now) }
    requires read { is_read event.now ≡ true }
    ensures { MatchOption result (least_pair (K.rule next.now) (event.now ∷ K.log next.now) ≡ None) (λ p. least_pair (K.rule next.now) (event.now ∷ K.log next.now) ≡ Some (p.b, p.a)) }
{
    pair_is_of_the_read();
    match first_b(next, log, event, n) {
        Some(b) => match first_a(next, log, event, n, b) {
            Some(a) => Some(Pair { a, b }),
            None => None,
        },
        None => None,
    }
}
