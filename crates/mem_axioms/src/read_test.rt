// Whether a read may take a position: the log with the read added is tested against the axioms. An access of its cell at a
// greater position, which the read passes over, may not happen before it, nor be bound to come before it by SEQ_CST.
ghost use Rattle.std.specs.Prelude.{◌≡◌, ◌<◌, ◌&&◌, nat_le, ◌∷◌, reverse, length};
ghost use Rattle.mem_axioms.specs.Events.{is_seq_cst_fence, on_one_cell};
ghost use Rattle.mem_axioms.specs.HappensBefore.{happens_before};
ghost use Rattle.mem_axioms.specs.Axioms.{has_seq_cst, is_or_is_fenced, reads_older};
ghost use Rattle.mem_axioms.specs.Flags.{AreRowsOf};
ghost use Rattle.mem_axioms.specs.PassedOver.{has_seq_cst_from, is_bound, is_passed, may_read};

use crate::event_facts::{fence, is_of_cell, order_in, position_in, seq_cst, seq_cst_fence};
use crate::rows::{Row, happens_before_next};
use crate::types::{Event, Kind, Mode, Numbered, Rule};

/// Whether both events access one cell.
pub fn on_same_cell(event: &Event, other: &Event) -> bool
    ensures { result ≡ on_one_cell event.now other.now }
{
    match event.kind {
        Kind::Access { cell, .. } => is_of_cell(other, cell),
        _ => false,
    }
}

/// Whether the first event reads a position of a cell that is below the one where the other accesses it.
fn passes_over(read: &Event, other: &Event) -> bool
    ensures { result ≡ reads_older read.now other.now }
{
    let reads = match read.kind {
        Kind::Access { mode, .. } => matches!(mode, Mode::Read),
        _ => false,
    };
    on_same_cell(other, read) && reads && position_in(read) < position_in(other)
}

/// Whether `other` is a SEQ_CST fence at `b` or after it that happens before the read.
fn is_fence_from(
    rule: Rule,
    events: &[Event],
    rows: &[Row],
    read: &Event,
    b: usize,
    other: Numbered,
) -> bool
    requires { AreRowsOf rule (reverse events.now) rows.now }
    ensures { result ≡ (is_seq_cst_fence other.entry.event.now && nat_le b other.entry.number && happens_before rule (read.now ∷ reverse events.now) other.entry.number (length events.now)) }
{
    seq_cst_fence(other.event)
        && b <= other.number
        && happens_before_next(rule, events, rows, read, other.number)
}

/// Whether the read is SEQ_CST, or a SEQ_CST fence at `b` or after it happens before the read.
fn is_seq_cst_from(rule: Rule, events: &[Event], rows: &[Row], read: &Event, b: usize) -> bool
    requires { AreRowsOf rule (reverse events.now) rows.now }
    ensures { result ≡ has_seq_cst_from rule (reverse events.now) read.now b }
{
    if seq_cst(order_in(read)) {
        return true;
    }
    for a in (0..events.len()).rev() {
        let other = Numbered {
            number: a,
            event: &events[a],
        };
        if is_fence_from(rule, events, rows, read, b, other) {
            return true;
        }
    }
    false
}

/// Whether `other` is SEQ_CST, is access `y` or a fence that `y` happens before, and binds the read.
fn binds(
    rule: Rule,
    events: &[Event],
    rows: &[Row],
    read: &Event,
    y: usize,
    other: Numbered,
) -> bool
    requires rows { AreRowsOf rule (reverse events.now) rows.now }
    requires number { other.number < length events.now }
    ensures { result ≡ (has_seq_cst other.entry.number other.entry.event.now && is_or_is_fenced rule (reverse events.now) y other.entry.number other.entry.event.now && has_seq_cst_from rule (reverse events.now) read.now other.entry.number) }
{
    seq_cst(order_in(other.event))
        && (other.number == y || (fence(other.event) && rows[other.number].holds(y)))
        && is_seq_cst_from(rule, events, rows, read, other.number)
}

/// Whether SEQ_CST bars the read from a position below that of access `y`.
fn is_barred(rule: Rule, events: &[Event], rows: &[Row], read: &Event, y: usize) -> bool
    requires { AreRowsOf rule (reverse events.now) rows.now }
    ensures { result ≡ is_bound rule (reverse events.now) read.now y }
{
    for b in (0..events.len()).rev() {
        let other = Numbered {
            number: b,
            event: &events[b],
        };
        if binds(rule, events, rows, read, y, other) {
            return true;
        }
    }
    false
}

/// Whether the read passes over `other` against an axiom.
fn is_breach(rule: Rule, events: &[Event], rows: &[Row], read: &Event, other: Numbered) -> bool
    requires { AreRowsOf rule (reverse events.now) rows.now }
    ensures { result ≡ is_passed rule (reverse events.now) read.now other.entry.number other.entry.event.now }
{
    passes_over(read, other.event)
        && (happens_before_next(rule, events, rows, read, other.number)
            || is_barred(rule, events, rows, read, other.number))
}

/// Whether the read passes over no access against an axiom.
pub fn may_come_next(rule: Rule, events: &[Event], rows: &[Row], read: &Event) -> bool
    requires { AreRowsOf rule (reverse events.now) rows.now }
    ensures { result ≡ may_read rule (reverse events.now) read.now }
{
    for y in (0..events.len()).rev() {
        let other = Numbered {
            number: y,
            event: &events[y],
        };
        if is_breach(rule, events, rows, read, other) {
            return false;
        }
    }
    true
}
