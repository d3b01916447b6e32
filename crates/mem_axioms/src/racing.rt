// Whether an event that comes next races.
ghost use Rattle.std.specs.Prelude.{◌≡◌, ◌+◌, ◌<◌, length, reverse, take};
ghost use Rattle.mem_axioms.specs.Logs.{least_event};
ghost use Rattle.mem_axioms.specs.Races.{may_race, races, race};
ghost use Rattle.mem_axioms.specs.Flags.{AreRowsOf};

use crate::event_facts::{atomic, modification, order_in};
use crate::read_test::on_same_cell;
use crate::rows::{Row, happens_before_next};
use crate::types::{Event, Numbered, Rule};

/// Whether both events access one cell by two threads, one of them a write or update, and not both atomic.
fn conflicts(event: &Event, next: &Event) -> bool
    ensures { result ≡ may_race event.now next.now }
{
    on_same_cell(event, next)
        && event.thread != next.thread
        && (modification(event) || modification(next))
        && !(atomic(order_in(event)) && atomic(order_in(next)))
}

/// Whether `other` races with `next`.
fn races_with(rule: Rule, events: &[Event], rows: &[Row], next: &Event, other: Numbered) -> bool
    requires { AreRowsOf rule (reverse events.now) rows.now }
    ensures { result ≡ races rule (reverse events.now) next.now other.entry.number other.entry.event.now }
{
    conflicts(other.event, next) && !happens_before_next(rule, events, rows, next, other.number)
}

/// The least racing event up to event `i`, where `least` is that of those before it.
fn least_up_to(
    rule: Rule,
    events: &[Event],
    rows: &[Row],
    next: &Event,
    least: Option<u32>,
    i: usize,
) -> Option<u32>
    requires rows { AreRowsOf rule (reverse events.now) rows.now }
    requires count { length events.now < 4294967295 }
    requires i { i < length events.now }
    requires least { least ≡ least_event (races rule (reverse events.now) next.now) (reverse (take i events.now)) }
    ensures { result ≡ least_event (races rule (reverse events.now) next.now) (reverse (take (i + 1) events.now)) }
{
    let other = Numbered {
        number: i,
        event: &events[i],
    };
    match least {
        Some(j) => Some(j),
        None if races_with(rule, events, rows, next, other) => Some(i as u32),
        None => None,
    }
}

/// The least event that races with `next`.
pub fn least_race(rule: Rule, events: &[Event], rows: &[Row], next: &Event) -> Option<u32>
    requires rows { AreRowsOf rule (reverse events.now) rows.now }
    requires count { length events.now < 4294967295 }
    ensures { result ≡ race rule (reverse events.now) next.now }
{
    let mut least = None;
    for i in 0..events.len() {
        least = least_up_to(rule, events, rows, next, least, i);
    }
    least
}
