// An event that is added, and what it is found by.
ghost use Rattle.std.specs.Prelude.{◌≡◌};
ghost use Rattle.view_parts.specs.Families.{is_not_atomic, is_not_atomic_modification, has_seq_cst_order, belongs, race_family};

use clocks::Clock;
use mem_axioms::Event;
use mem_axioms::event_facts::{atomic, modification, order_in, seq_cst};

/// Which accesses of a cell are found by themselves: those that may race with an event of some kind, and the SEQ_CST ones, which
/// raise floors.
#[derive(Clone, Copy, Debug, PartialEq, Eq)]
pub enum Family {
    /// All accesses.
    Any,
    /// Writes and updates.
    Modifications,
    /// NOT_ATOMIC accesses.
    NotAtomic,
    /// NOT_ATOMIC writes and updates.
    NotAtomicModifications,
    /// SEQ_CST accesses.
    SeqCst,
}

/// An event that is added.
#[derive(Clone, Copy)]
pub struct NextEvent<'a> {
    /// The event.
    pub event: &'a Event,
    /// How many events came before it.
    pub number: u32,
    /// The clock that it gives to the sequences that it heads, if it gives one.
    pub given: &'a Option<Clock>,
}

/// Whether the event is a NOT_ATOMIC access.
pub fn not_atomic(event: &Event) -> bool
    ensures { result ≡ is_not_atomic event.now }
{
    !atomic(order_in(event))
}

/// Whether the event is a NOT_ATOMIC write or update.
fn not_atomic_modification(event: &Event) -> bool
    ensures { result ≡ is_not_atomic_modification event.now }
{
    not_atomic(event) && modification(event)
}

/// Whether the event has SEQ_CST order.
fn with_seq_cst(event: &Event) -> bool
    ensures { result ≡ has_seq_cst_order event.now }
{
    seq_cst(order_in(event))
}

/// Whether an access is of the family.
pub fn belongs(family: Family, event: &Event) -> bool
    ensures { result ≡ belongs family event.now }
{
    match family {
        Family::Any => true,
        Family::Modifications => modification(event),
        Family::NotAtomic => not_atomic(event),
        Family::NotAtomicModifications => not_atomic_modification(event),
        Family::SeqCst => with_seq_cst(event),
    }
}

/// Of the accesses of its cell, those that may race with an access: of the two one is a write or update, and one is NOT_ATOMIC.
pub fn racing_family(event: &Event) -> Family
    ensures { result ≡ race_family event.now }
{
    if not_atomic(event) {
        if modification(event) {
            return Family::Any;
        }
        return Family::Modifications;
    }
    if modification(event) {
        return Family::NotAtomic;
    }
    Family::NotAtomicModifications
}
