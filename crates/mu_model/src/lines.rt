// What a run writes.
use crate::shared::SharedValues;
use mem_axioms::Event;
use mu_values::{CellId, Passed};
use text_forms::Listing;

/// A record of something that happened in a run. Threads, blocks and watchpoints stand by number. A place is that of an instruction in
/// its block, from 0, and a frame stands by its number from the top of its stack, from 0.
#[derive(Drop)]
pub enum Note {
    /// The bottom frame of the thread's stack returned these values, and the thread ended.
    Returned {
        thread: u32,
        values: Passed,
    },
    /// The thread ended by `@uvm.thread_exit`, or because the client said so.
    Exited {
        thread: u32,
    },
    /// The thread stands at a trap, and has left its stack.
    Trap {
        thread: u32,
        block: u32,
        at: u32,
    },
    /// The thread stands at an enabled watchpoint, and has left its stack.
    Watchpoint {
        thread: u32,
        block: u32,
        at: u32,
        watchpoint: u32,
    },
    /// The client asked where this frame of the trapped stack stands.
    Frame {
        frame: u32,
        block: u32,
        at: u32,
    },
    /// The client asked what this frame of the trapped stack keeps. Records of one frame may share the values.
    Kept {
        frame: u32,
        values: SharedValues,
    },
    /// The thread waited at the cell with a limit, and its wait is over.
    TimedOut {
        thread: u32,
        cell: CellId,
    },
}

/// One line of a run.
#[derive(Drop)]
pub enum Line {
    /// An event of the log, with its number, which is how many events came before it.
    Event { number: u32, event: Event },
    /// A record.
    Note(Note),
}

/// Lines, in order.
pub type Lines = Listing<Line>;
