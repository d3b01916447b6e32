// What sleeps.
ghost use Rattle.std.specs.Prelude.{◌≡◌, ◌&&◌, ◌==◌, ◌++◌, OnOk, filter, true, false};
ghost use Rattle.std.specs.List.{list_any};
ghost use Rattle.exchange_laws.specs.Independence.{independent};
ghost use Rattle.sleep_moves.specs.Moves.{order_number, mode_number, same_kind, are_same};

use crate::exchange::may_exchange;
use mem_axioms::event_facts::{is_same_cell, is_same_scalar};
use mem_axioms::{Event, Kind, Mode};
use mu_base::Order;
use std::alloc::{AllocError, Global};

// The number of an order.
fn order_number(order: Order) -> u32
    ensures { result ≡ order_number order }
{
    match order {
        Order::NotAtomic => 0,
        Order::Relaxed => 1,
        Order::Consume => 2,
        Order::Acquire => 3,
        Order::Release => 4,
        Order::AcqRel => 5,
        Order::SeqCst => 6,
    }
}

// The number of a mode.
fn mode_number(mode: Mode) -> u32
    ensures { result ≡ mode_number mode }
{
    match mode {
        Mode::Read => 0,
        Mode::Write => 1,
        Mode::Update => 2,
    }
}

// Whether the same happened, which is an access or a fence.
fn is_same_kind(kind: Kind, other: Kind) -> bool
    ensures { result ≡ same_kind kind other }
{
    match (kind, other) {
        (
            Kind::Access {
                mode,
                cell,
                order,
                position,
                value,
            },
            Kind::Access {
                mode: mode_too,
                cell: place,
                order: order_too,
                position: number,
                value: scalar,
            },
        ) => {
            mode_number(mode) == mode_number(mode_too)
                && is_same_cell(cell, place)
                && order_number(order) == order_number(order_too)
                && position == number
                && is_same_scalar(value, scalar)
        }
        (Kind::Fence { order }, Kind::Fence { order: order_too }) => {
            order_number(order) == order_number(order_too)
        }
        _ => false,
    }
}

/// Whether two events of moves, which are accesses or fences, are the same.
pub fn is_same_event(event: &Event, other: &Event) -> bool
    ensures { result ≡ are_same event.now other.now }
{
    event.thread == other.thread && is_same_kind(event.kind, other.kind)
}

/// Whether the move with this event sleeps, where the moves with those sleep.
pub fn is_asleep(event: &Event, sleep: &[Event]) -> bool
    ensures { result ≡ list_any (are_same event.now) sleep.now }
{
    for other in sleep {
        if is_same_event(event, other) {
            return true;
        }
    }
    false
}

// Adds those that may be exchanged with the event, which has this number.
fn keep_apart(
    number: u32,
    event: &Event,
    from: &[Event],
    into: &mut Vec<Event>,
) -> Result<(), AllocError>
    ensures { OnOk result (into.new.items ≡ into.old.items ++ filter (independent number event.now) from.now) }
{
    for other in from {
        if may_exchange(number, event, other) {
            into.push(*other)?;
        }
    }
    Ok(())
}

/// What sleeps behind the event with this number: of what slept and of the events of the moves before it, those that could have come before
/// it. It is refused only when out of memory; then the list means nothing.
pub fn fall_asleep(
    alloc: Global,
    number: u32,
    event: &Event,
    before: &[Event],
    sleep: &mut Vec<Event>,
) -> Result<(), AllocError>
    ensures { OnOk result (sleep.new.items ≡ filter (independent number event.now) (sleep.old.items ++ before.now)) }
{
    let mut kept = Vec::new(alloc);
    keep_apart(number, event, sleep, &mut kept)?;
    keep_apart(number, event, before, &mut kept)?;
    *sleep = kept;
    Ok(())
}
