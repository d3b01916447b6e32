// Logs are read, and others are refused.
use demands::Fault;
use log_lines::LogKind;
use log_reading::{LogFault, read_log};
use mem_axioms::{Event, Kind, Mode};
use mu_base::Order;
use mu_values::{CellId, Scalar};
use std::alloc::Global;
use std::test::Fail;

// How many events a text has, or its first fault.
fn events_or_fault(alloc: Global, text: &[u8]) -> Result<u32, LogFault> {
    let log = read_log(alloc, text)?;
    Ok(log.len())
}

fn fault(kind: LogKind, place: usize) -> Result<u32, LogFault> {
    Err(Fault::At { kind, place })
}

// Event `n` of a text.
fn event(alloc: Global, text: &[u8], n: u32) -> Option<Event> {
    match read_log(alloc, text) {
        Ok(log) if n < log.len() => Some(*log.event(n)),
        _ => None,
    }
}

const STORE_BUFFERING: &[u8] =
    b"0 t0 stack s1\n1 t0 thread t1\n2 t1 enter s1\n3 t0 write RELAXED #0+0 1 1\n4 t1 write RELAXED #1+0 1 1\n5 t0 read RELAXED #1+0 0 0\n6 t1 read RELAXED #0+0 0 0\nreturned t0 0\nreturned t1 0\ndone\n";

const OLD_DATA: &[u8] =
    b"0 t0 thread t1\n1 t0 write NOT_ATOMIC #0+0 1 40\n2 t0 write RELEASE #1+0 1 1\n3 t1 read ACQUIRE #1+0 1 1\n4 t1 read NOT_ATOMIC #0+0 0 0\n";

#[test]
fn reads_logs(rt: HostRuntime) -> Result<(), Fail> {
    let alloc = rt.alloc();
    assert_eq!(rt; events_or_fault(alloc, STORE_BUFFERING), Ok(7));
    assert_eq!(rt; events_or_fault(alloc, OLD_DATA), Ok(5));
    let sequential =
        b"0 t0 thread t1\n1 t0 write SEQ_CST #0+0 1 1\n2 t1 write SEQ_CST #1+0 1 1\n3 t0 read SEQ_CST #1+0 0 0\n4 t1 read SEQ_CST #0+0 0 0\n";
    assert_eq!(rt; events_or_fault(alloc, sequential), Ok(5));
    let race = b"0 t0 thread t1\n1 t0 write NOT_ATOMIC #0+0 1 5\n2 t1 read RELAXED #0+0 1 5\n";
    assert_eq!(rt; events_or_fault(alloc, race), Ok(3));
    assert_eq!(rt;
        events_or_fault(alloc, b"0 t0 write RELAXED #0+0 2 5"),
        Ok(1)
    );
    assert_eq!(rt; events_or_fault(alloc, b""), Ok(0));
    Ok(())
}

#[test]
fn reads_events(rt: HostRuntime) -> Result<(), Fail> {
    let alloc = rt.alloc();
    assert_eq!(rt;
        event(alloc, STORE_BUFFERING, 0),
        Some(Event {
            thread: 0,
            kind: Kind::NewStack { stack: 1 }
        })
    );
    assert_eq!(rt;
        event(alloc, STORE_BUFFERING, 2),
        Some(Event {
            thread: 1,
            kind: Kind::Enter { stack: 1 }
        })
    );
    let write = Kind::Access {
        mode: Mode::Write,
        cell: CellId { object: 0, at: 0 },
        order: Order::NotAtomic,
        position: 1,
        value: Scalar::Int {
            width: 128,
            bits: 40,
        },
    };
    assert_eq!(rt;
        event(alloc, OLD_DATA, 1),
        Some(Event {
            thread: 0,
            kind: write
        })
    );
    Ok(())
}

#[test]
fn numbers_functions_by_first_use(rt: HostRuntime) -> Result<(), Fail> {
    let alloc = rt.alloc();
    let text =
        b"0 t0 read RELAXED #0+0 0 @f\n1 t0 read RELAXED #0+1 0 @g.h\n2 t0 read RELAXED #0+0 0 @f\n";
    for (n, function) in [(0, 0), (1, 1), (2, 0)] {
        let value = match event(alloc, text, n) {
            Some(
                Event {
                    kind: Kind::Access { value, .. },
                    ..
                },
            ) => Some(value),
            _ => None,
        };
        assert_eq!(rt; value, Some(Scalar::Func(function)));
    }
    Ok(())
}

#[test]
fn refuses_logs(rt: HostRuntime) -> Result<(), Fail> {
    let alloc = rt.alloc();
    assert_eq!(rt;
        events_or_fault(alloc, b"0 t0 fence RELEASED"),
        fault(LogKind::Unexpected, 11)
    );
    assert_eq!(rt;
        events_or_fault(alloc, b"1 t0 fence ACQUIRE"),
        fault(LogKind::BadNumber, 0)
    );
    assert_eq!(rt;
        events_or_fault(alloc, b"0 t0 fence ACQUIRE\r\n"),
        fault(LogKind::Lex, 18)
    );
    assert_eq!(rt;
        events_or_fault(alloc, b"done\n0 t0 fence\n"),
        fault(LogKind::Unexpected, 15)
    );
    assert_eq!(rt;
        events_or_fault(alloc, b"0 t64 fence ACQUIRE"),
        fault(LogKind::BadNumber, 2)
    );
    assert_eq!(rt;
        events_or_fault(alloc, b"0 t0 wake #99999999999+x 0"),
        fault(LogKind::Unexpected, 10)
    );
    assert_eq!(rt;
        events_or_fault(alloc, b"0 t0 wake #99999999999+0 0"),
        fault(LogKind::BadNumber, 10)
    );
    Ok(())
}
