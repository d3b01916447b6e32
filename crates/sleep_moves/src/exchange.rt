// Whether two neighbouring events may be exchanged.
ghost use Rattle.std.specs.Prelude.{◌≡◌, ◌&&◌, ◌||◌, ◌==◌, true, false};
ghost use Rattle.mem_axioms.specs.Events.{on_one_cell, is_read};
ghost use Rattle.mem_axioms.specs.Axioms.{comes_first};
ghost use Rattle.mem_axioms.specs.Races.{may_race};
ghost use Rattle.exchange_laws.specs.Exchange.{names_below, enters};
ghost use Rattle.exchange_laws.specs.Independence.{conflict, seq_cst_apart, touches, share_stack, independent};

use mem_axioms::event_facts::{
    atomic, fence, gives_up_stack, is_of_cell, makes, modification, order_in, position_in, seq_cst,
};
use mem_axioms::{Event, Kind, Mode};

// Whether both access one cell.
fn on_one_cell(event: &Event, next: &Event) -> bool
    ensures { result ≡ on_one_cell event.now next.now }
{
    match event.kind {
        Kind::Access { cell, .. } => is_of_cell(next, cell),
        _ => false,
    }
}

// Whether the event is a read.
fn is_read(event: &Event) -> bool
    ensures { result ≡ is_read event.now }
{
    match event.kind {
        Kind::Access { mode, .. } => matches!(mode, Mode::Read),
        _ => false,
    }
}

// Whether both modify one cell, or one stands there at the position that the other makes.
fn conflict(event: &Event, next: &Event) -> bool
    ensures { result ≡ conflict event.now next.now }
{
    on_one_cell(event, next)
        && ((modification(event) && modification(next))
            || ((modification(event) || modification(next))
                && position_in(event) == position_in(next)))
}

// Whether they access one cell by two threads, one of them a write or update, and not both atomic.
fn may_race(event: &Event, next: &Event) -> bool
    ensures { result ≡ may_race event.now next.now }
{
    on_one_cell(event, next)
        && event.thread != next.thread
        && (modification(event) || modification(next))
        && !(atomic(order_in(event)) && atomic(order_in(next)))
}

// Whether the first stands at a smaller position of the cell, or is read by the other.
fn comes_first(event: &Event, next: &Event) -> bool
    ensures { result ≡ comes_first event.now next.now }
{
    on_one_cell(event, next)
        && (position_in(event) < position_in(next)
            || (modification(event) && is_read(next) && position_in(event) == position_in(next)))
}

// Whether they are not both SEQ_CST, or both are accesses neither of which comes first.
fn seq_cst_apart(event: &Event, next: &Event) -> bool
    ensures { result ≡ seq_cst_apart event.now next.now }
{
    !(seq_cst(order_in(event))
        && seq_cst(order_in(next))
        && (fence(event)
            || (fence(next) || (comes_first(event, next) || comes_first(next, event)))))
}

// Whether the event enters the stack.
fn enters(event: &Event, stack: u32) -> bool
    ensures { result ≡ enters stack event.now }
{
    match event.kind {
        Kind::Enter { stack: entered } => entered == stack,
        _ => false,
    }
}

// Whether the event gives the stack up or enters it.
fn touches(event: &Event, stack: u32) -> bool
    ensures { result ≡ touches stack event.now }
{
    gives_up_stack(event, stack) || enters(event, stack)
}

// Whether one gives up a stack that the other gives up or enters.
fn share_stack(event: &Event, next: &Event) -> bool
    ensures { result ≡ share_stack event.now next.now }
{
    match event.kind {
        Kind::NewStack { stack } => touches(next, stack),
        Kind::Leave { stack } => touches(next, stack),
        Kind::Enter { stack } => gives_up_stack(next, stack),
        _ => false,
    }
}

// Whether the event is not woken by the event with this number or a later one.
fn names_below(event: &Event, number: u32) -> bool
    ensures { result ≡ names_below number event.now }
{
    match event.kind {
        Kind::Woken { wake } => wake < number,
        _ => true,
    }
}

/// Whether two neighbouring events may be exchanged, of which the first has this number.
pub fn may_exchange(number: u32, event: &Event, next: &Event) -> bool
    ensures { result ≡ independent number event.now next.now }
{
    event.thread != next.thread
        && (!(makes(event, next.thread) || makes(next, event.thread))
            && (!conflict(event, next)
                && (!may_race(event, next)
                    && (seq_cst_apart(event, next)
                        && (!share_stack(event, next)
                            && (names_below(event, number) && names_below(next, number)))))))
}
