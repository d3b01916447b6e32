use crate::playing::{Line, play_lists};
use mem_axioms::{Chosen, Event, Kind, Log, Mode, Rule, Wanted};
use mu_base::Order;
use mu_values::{CellId, Scalar};
use std::marker::Brand;
use std::sync::ledger::Blank;
use std::test::Fail;

macro_rules! int {
    ($bits:expr) => {
        Scalar::Int { width: 64, bits: $bits }
    };
}

/// An access, as a run prints it: thread, mode, order, object and place, position, value.
macro_rules! access {
    ($thread:expr, $mode:ident, $order:ident, $object:expr, $at:expr, $position:expr, $value:expr) => {
        Event {
            thread: $thread,
            kind: Kind::Access {
                mode: Mode::$mode,
                cell: CellId { object: $object, at: $at },
                order: Order::$order,
                position: $position,
                value: $value,
            },
        }
    };
}

macro_rules! put {
    ($thread:expr, $mode:ident, $order:ident, $object:expr, $at:expr, $position:expr, $value:expr) => {
        Line::Put(access!($thread, $mode, $order, $object, $at, $position, $value))
    };
}

macro_rules! races {
    ($thread:expr, $mode:ident, $order:ident, $object:expr, $at:expr, $position:expr, $value:expr, $earlier:expr) => {
        Line::Races(access!($thread, $mode, $order, $object, $at, $position, $value), $earlier)
    };
}

macro_rules! fence {
    ($thread:expr, $order:ident) => {
        Line::Put(Event { thread: $thread, kind: Kind::Fence { order: Order::$order } })
    };
}

macro_rules! thread {
    ($thread:expr, $child:expr) => {
        Line::Put(Event { thread: $thread, kind: Kind::NewThread { child: $child } })
    };
}

macro_rules! stack {
    ($thread:expr, $kind:ident, $stack:expr) => {
        Line::Put(Event { thread: $thread, kind: Kind::$kind { stack: $stack } })
    };
}

/// Option `n` of a load of place 0 of the object: its position and value.
macro_rules! loads {
    ($thread:expr, $order:ident, $object:expr, $n:expr, $position:expr, $value:expr) => {
        Line::Choice(
            $thread,
            CellId { object: $object, at: 0 },
            Wanted::Load { order: Order::$order },
            $n,
            Some(Chosen { position: $position, value: $value, success: false }),
        )
    };
}

/// A load of place 0 of the object has no option `n`.
macro_rules! no_load {
    ($thread:expr, $order:ident, $object:expr, $n:expr) => {
        Line::Choice(
            $thread,
            CellId { object: $object, at: 0 },
            Wanted::Load { order: Order::$order },
            $n,
            None,
        )
    };
}

/// Option `n` of a RELAXED comparison of place 0 of object 0.
macro_rules! compares {
    ($thread:expr, $weak:expr, $expected:expr, $n:expr, $option:expr) => {
        Line::Choice(
            $thread,
            CellId { object: 0, at: 0 },
            Wanted::Compare {
                success: Order::Relaxed,
                failure: Order::Relaxed,
                expected: int!($expected),
                weak: $weak,
            },
            $n,
            $option,
        )
    };
}

macro_rules! chosen {
    ($position:expr, $value:expr, $success:expr) => {
        Some(Chosen { position: $position, value: int!($value), success: $success })
    };
}

static ZEROS: [[Scalar; 2]; 2] = [[int!(0), int!(0)], [int!(0), int!(0)]];

static HELD: [[Scalar; 2]; 5] = [
    [Scalar::Object(2), Scalar::Null],
    [Scalar::Place { object: 4, at: 1 }, Scalar::Null],
    [int!(5), Scalar::Object(3)],
    [int!(7), Scalar::Object(2)],
    [int!(0), int!(9)],
];

static INITIAL_SCALARS: [Line; 6] = [
    no_load!(0, NotAtomic, 0, 1),
    put!(0, Read, NotAtomic, 0, 0, 0, Scalar::Object(2)),
    put!(0, Read, NotAtomic, 2, 1, 0, Scalar::Object(3)),
    put!(0, Read, NotAtomic, 3, 0, 0, int!(7)),
    put!(
        0,
        Read,
        NotAtomic,
        1,
        0,
        0,
        Scalar::Place { object: 4, at: 1 }
    ),
    put!(0, Read, NotAtomic, 4, 1, 0, int!(9)),
];

static GENERATOR: [Line; 8] = [
    stack!(0, NewStack, 1),
    stack!(0, Leave, 0),
    stack!(0, Enter, 1),
    stack!(0, Leave, 1),
    stack!(0, Enter, 0),
    stack!(0, Leave, 0),
    stack!(0, Enter, 1),
    stack!(0, Enter, 0),
];

static MESSAGE_PASSING: [Line; 12] = [
    stack!(0, NewStack, 1),
    thread!(0, 1),
    stack!(1, Enter, 1),
    put!(0, Write, NotAtomic, 0, 0, 1, int!(40)),
    put!(0, Write, Release, 1, 0, 1, int!(1)),
    loads!(1, Acquire, 1, 0, 1, int!(1)),
    loads!(1, Acquire, 1, 1, 0, int!(0)),
    no_load!(1, Acquire, 1, 2),
    put!(1, Read, Acquire, 1, 0, 1, int!(1)),
    loads!(1, NotAtomic, 0, 0, 1, int!(40)),
    no_load!(1, NotAtomic, 0, 1),
    put!(1, Read, NotAtomic, 0, 0, 1, int!(40)),
];

static MESSAGE_PASSING_BY_A_PLAIN_FLAG: [Line; 6] = [
    stack!(0, NewStack, 1),
    thread!(0, 1),
    stack!(1, Enter, 1),
    put!(0, Write, NotAtomic, 0, 0, 1, int!(40)),
    put!(0, Write, NotAtomic, 1, 0, 1, int!(1)),
    races!(1, Read, Acquire, 1, 0, 1, int!(1), 4),
];

static MESSAGE_PASSING_THROUGH_AN_UPDATE: [Line; 13] = [
    stack!(0, NewStack, 1),
    stack!(0, NewStack, 2),
    thread!(0, 1),
    stack!(1, Enter, 1),
    thread!(0, 2),
    stack!(2, Enter, 2),
    put!(0, Write, NotAtomic, 0, 0, 1, int!(40)),
    put!(0, Write, Release, 1, 0, 1, int!(1)),
    Line::Choice(
        1,
        CellId { object: 1, at: 0 },
        Wanted::Swap,
        0,
        chosen!(1, 1, true),
    ),
    put!(1, Update, Relaxed, 1, 0, 2, int!(2)),
    put!(2, Read, Acquire, 1, 0, 2, int!(2)),
    no_load!(2, NotAtomic, 0, 1),
    put!(2, Read, NotAtomic, 0, 0, 1, int!(40)),
];

static WEAK_COMPARISON: [Line; 10] = [
    stack!(0, NewStack, 1),
    thread!(0, 1),
    stack!(1, Enter, 1),
    put!(0, Write, Relaxed, 0, 0, 1, int!(1)),
    compares!(1, true, 0, 0, chosen!(1, 1, false)),
    compares!(1, true, 0, 1, chosen!(0, 0, false)),
    compares!(1, true, 0, 2, None),
    compares!(1, true, 1, 0, chosen!(1, 1, true)),
    compares!(1, true, 1, 1, chosen!(1, 1, false)),
    put!(1, Read, Relaxed, 0, 0, 0, int!(0)),
];

static STRONG_COMPARISON: [Line; 8] = [
    stack!(0, NewStack, 1),
    thread!(0, 1),
    stack!(1, Enter, 1),
    put!(0, Write, Relaxed, 0, 0, 1, int!(1)),
    compares!(1, false, 0, 0, chosen!(1, 1, false)),
    compares!(1, false, 0, 1, None),
    compares!(1, false, 1, 1, chosen!(0, 0, false)),
    put!(1, Read, Relaxed, 0, 0, 1, int!(1)),
];

static STACK_OF_A_NEW_THREAD: [Line; 12] = [
    stack!(0, NewStack, 1),
    stack!(0, Leave, 0),
    stack!(0, Enter, 1),
    put!(0, Write, NotAtomic, 1, 0, 1, int!(40)),
    stack!(0, Leave, 1),
    stack!(0, Enter, 0),
    thread!(0, 1),
    stack!(1, Enter, 1),
    put!(0, Read, Relaxed, 0, 0, 0, int!(0)),
    no_load!(1, NotAtomic, 1, 1),
    put!(1, Read, NotAtomic, 1, 0, 1, int!(40)),
    put!(1, Read, Relaxed, 0, 0, 0, int!(0)),
];

static MIGRATING_STACK: [Line; 14] = [
    stack!(0, NewStack, 1),
    thread!(0, 1),
    stack!(1, Enter, 1),
    stack!(0, NewStack, 2),
    stack!(0, Leave, 0),
    stack!(0, Enter, 2),
    put!(0, Write, NotAtomic, 1, 0, 1, int!(40)),
    stack!(0, Leave, 2),
    stack!(0, Enter, 0),
    put!(0, Write, Relaxed, 0, 0, 1, Scalar::Stack(2)),
    put!(1, Read, Relaxed, 0, 0, 1, Scalar::Stack(2)),
    races!(1, Read, NotAtomic, 1, 0, 1, int!(40), 6),
    stack!(1, Enter, 2),
    put!(1, Read, NotAtomic, 1, 0, 1, int!(40)),
];

static WAKE: [Line; 6] = [
    stack!(0, NewStack, 1),
    thread!(0, 1),
    stack!(1, Enter, 1),
    put!(1, Read, Relaxed, 0, 0, 0, int!(0)),
    Line::Put(Event {
        thread: 0,
        kind: Kind::Wake {
            cell: CellId { object: 0, at: 0 },
            count: 1,
        },
    }),
    Line::Put(Event {
        thread: 1,
        kind: Kind::Woken { wake: 4 },
    }),
];

static FENCED_STORE_BUFFERING: [Line; 8] = [
    thread!(0, 1),
    put!(0, Write, Relaxed, 0, 0, 1, int!(1)),
    fence!(0, SeqCst),
    put!(0, Read, Relaxed, 1, 0, 0, int!(0)),
    put!(1, Write, Relaxed, 1, 0, 1, int!(1)),
    loads!(1, Relaxed, 0, 1, 0, int!(0)),
    fence!(1, SeqCst),
    no_load!(1, Relaxed, 0, 1),
];

static OWN_STORE_GOES_ON: [Line; 8] = [
    stack!(0, NewStack, 1),
    thread!(0, 1),
    stack!(1, Enter, 1),
    put!(0, Write, NotAtomic, 0, 0, 1, int!(40)),
    put!(0, Write, Release, 1, 0, 1, int!(1)),
    put!(0, Write, Relaxed, 1, 0, 2, int!(2)),
    put!(1, Read, Acquire, 1, 0, 2, int!(2)),
    put!(1, Read, NotAtomic, 0, 0, 1, int!(40)),
];

static OWN_STORE_ENDS: [Line; 8] = [
    stack!(0, NewStack, 1),
    thread!(0, 1),
    stack!(1, Enter, 1),
    put!(0, Write, NotAtomic, 0, 0, 1, int!(40)),
    put!(0, Write, Release, 1, 0, 1, int!(1)),
    put!(0, Write, Relaxed, 1, 0, 2, int!(2)),
    put!(1, Read, Acquire, 1, 0, 2, int!(2)),
    races!(1, Read, NotAtomic, 0, 0, 1, int!(40), 3),
];

#[test]
fn lists_have_their_answers(rt: HostRuntime) -> Result<(), Fail> {
    let alloc = rt.alloc();
    let lists: [&[Line]; 11] = [
        &GENERATOR,
        &MESSAGE_PASSING,
        &MESSAGE_PASSING_BY_A_PLAIN_FLAG,
        &MESSAGE_PASSING_THROUGH_AN_UPDATE,
        &WEAK_COMPARISON,
        &STRONG_COMPARISON,
        &STACK_OF_A_NEW_THREAD,
        &MIGRATING_STACK,
        &WAKE,
        &FENCED_STORE_BUFFERING,
        &OWN_STORE_GOES_ON,
    ];
    play_lists::<Brand>(&rt, alloc, Rule::C11, &ZEROS, &lists, Blank::new(1))?;
    let held: [&[Line]; 1] = [&INITIAL_SCALARS];
    play_lists::<Brand>(&rt, alloc, Rule::C11, &HELD, &held, Blank::new(1))?;
    let updates_alone: [&[Line]; 1] = [&OWN_STORE_ENDS];
    play_lists::<Brand>(&rt, alloc, Rule::Rmw, &ZEROS, &updates_alone, Blank::new(1))?;
    Ok(())
}

#[test]
fn log_lists_its_events(rt: HostRuntime) -> Result<(), Fail> {
    let mut log = Log::new(rt.alloc());
    assert_eq!(rt; log.len(), 0);
    log.push(access!(0, Write, Relaxed, 0, 0, 1, int!(1)))?;
    log.push(access!(1, Read, Relaxed, 0, 0, 1, int!(1)))?;
    assert_eq!(rt; log.len(), 2);
    assert_eq!(rt; *log.event(0), access!(0, Write, Relaxed, 0, 0, 1, int!(1)));
    Ok(())
}
