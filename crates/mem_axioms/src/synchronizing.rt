// Whether an event synchronizes with the one that comes next. Each function is the test of its name in the definitions,
// on the events of a log in their order.
ghost use Rattle.std.specs.Prelude.{◌≡◌, ◌&&◌, ◌||◌, ◌==◌, nat_lt, reverse};
ghost use Rattle.mem_axioms.specs.Events.{order_of};
ghost use Rattle.mem_axioms.specs.Logs.{any_event};
ghost use Rattle.mem_axioms.specs.Synchronizes.{releases, continues, heads, fences, released, released_to, synchronizes_by_release, last_to_give_up, synchronizes_by_stack, makes_thread, synchronizes_by_wake, synchronizes};
ghost use Rattle.mem_axioms.specs.HappensBefore.{precedes};

use crate::event_facts::{
    acquire, atomic, fence, gives_up_stack, makes, modifies_cell, order_in, position_in, release,
    taken_by, update, wake,
};
use crate::types::{Event, Kind, Mode, Numbered, Rule};
use mu_values::CellId;

/// Whether a write or update goes on a release sequence whose head is by the thread.
fn goes_on(rule: Rule, event: &Event, thread: u32) -> bool
    ensures { result ≡ continues rule event.now thread }
{
    let own = match rule {
        Rule::C11 => atomic(order_in(event)) && event.thread == thread,
        Rule::Rmw => false,
    };
    update(event) || own
}

/// Whether `head` heads a release sequence that has the position.
fn heads_position(rule: Rule, events: &[Event], cell: CellId, position: u32, head: Numbered) -> bool
    ensures { result ≡ heads rule (reverse events.now) cell position head.entry.number head.entry.event.now }
{
    let mut at = position;
    for i in (0..events.len()).rev() {
        let event = &events[i];
        if modifies_cell(event, cell) && position_in(event) == at {
            if atomic(order_in(event)) && head.number == i {
                return true;
            }
            if !goes_on(rule, event, head.event.thread) {
                return false;
            }
            at = at.saturating_sub(1);
        }
    }
    false
}

/// Whether `by` is the head and a release, or a release fence before it.
fn releases_by(by: Numbered, head: Numbered) -> bool
    ensures { result ≡ (((by.entry.number == head.entry.number) && releases (order_of head.entry.event.now)) || fences by.entry.number by.entry.event.now head.entry.number head.entry.event.now) }
{
    let is_fence = by.number < head.number
        && by.event.thread == head.event.thread
        && fence(by.event)
        && release(order_in(by.event));
    (by.number == head.number && release(order_in(head.event))) || is_fence
}

/// Whether `by` released the position.
fn released_at(rule: Rule, events: &[Event], cell: CellId, position: u32, by: Numbered) -> bool
    ensures { result ≡ released rule (reverse events.now) cell position by.entry.number by.entry.event.now }
{
    for h in (0..events.len()).rev() {
        let head = Numbered {
            number: h,
            event: &events[h],
        };
        if releases_by(by, head) && heads_position(rule, events, cell, position, head) {
            return true;
        }
    }
    false
}

/// The same for the position that an atomic read or update takes.
fn released_to_read(rule: Rule, events: &[Event], read: &Event, by: Numbered) -> bool
    ensures { result ≡ released_to rule (reverse events.now) read.now by.entry.number by.entry.event.now }
{
    match read.kind {
        Kind::Access {
            mode,
            cell,
            order,
            ..
        } => {
            !matches!(mode, Mode::Write)
                && atomic(order)
                && released_at(rule, events, cell, taken_by(read), by)
        }
        _ => false,
    }
}

/// Whether `read` is sequenced before `next` and takes what `by` released.
fn leaves_to(rule: Rule, events: &[Event], read: Numbered, by: Numbered, next: &Event) -> bool
    ensures { result ≡ (nat_lt by.entry.number read.entry.number && (read.entry.event.now.thread == next.now.thread) && released_to rule (reverse events.now) read.entry.event.now by.entry.number by.entry.event.now) }
{
    by.number < read.number
        && read.event.thread == next.thread
        && released_to_read(rule, events, read.event, by)
}

/// Whether a read before the fence `next` takes what `by` released.
fn left_for_fence(rule: Rule, events: &[Event], by: Numbered, next: &Event) -> bool
    ensures { result ≡ any_event (λ r er. nat_lt by.entry.number r && (er.thread == next.now.thread) && released_to rule (reverse events.now) er by.entry.number by.entry.event.now) (reverse events.now) }
{
    for r in (0..events.len()).rev() {
        let read = Numbered {
            number: r,
            event: &events[r],
        };
        if leaves_to(rule, events, read, by, next) {
            return true;
        }
    }
    false
}

/// Case 1: by what was released.
fn reaches_acquire(rule: Rule, events: &[Event], by: Numbered, next: &Event) -> bool
    ensures { result ≡ synchronizes_by_release rule (reverse events.now) by.entry.number by.entry.event.now next.now }
{
    acquire(order_in(next))
        && (released_to_read(rule, events, next, by)
            || (fence(next) && left_for_fence(rule, events, by, next)))
}

/// Whether event `i` is the last that left or made the stack.
fn is_last_to_give_up(events: &[Event], stack: u32, i: usize) -> bool
    ensures { result ≡ last_to_give_up (reverse events.now) stack i }
{
    let mut last = false;
    for k in 0..events.len() {
        if gives_up_stack(&events[k], stack) {
            last = i == k;
        }
    }
    last
}

/// Case 2: by the entering of a stack.
fn enters_stack(events: &[Event], i: usize, next: &Event) -> bool
    ensures { result ≡ synchronizes_by_stack (reverse events.now) i next.now }
{
    match next.kind {
        Kind::Enter { stack } => is_last_to_give_up(events, stack, i),
        _ => false,
    }
}

/// Case 4: by a wake.
fn woken_by(by: Numbered, next: &Event) -> bool
    ensures { result ≡ synchronizes_by_wake by.entry.number by.entry.event.now next.now }
{
    match next.kind {
        Kind::Woken { wake: woke } => by.number == woke as usize && wake(by.event),
        _ => false,
    }
}

/// Whether `by` synchronizes with `next`.
fn synchronizes_with(rule: Rule, events: &[Event], by: Numbered, next: &Event) -> bool
    ensures { result ≡ synchronizes rule (reverse events.now) by.entry.number by.entry.event.now next.now }
{
    reaches_acquire(rule, events, by, next)
        || enters_stack(events, by.number, next)
        || makes(by.event, next.thread)
        || woken_by(by, next)
}

/// Whether `by` is sequenced before `next` or synchronizes with it.
pub fn precedes_next(rule: Rule, events: &[Event], by: Numbered, next: &Event) -> bool
    ensures { result ≡ precedes rule (reverse events.now) by.entry.number by.entry.event.now next.now }
{
    by.event.thread == next.thread || synchronizes_with(rule, events, by, next)
}
