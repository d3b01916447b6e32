// The types of the memory model.
use mu_base::Order;
use mu_values::{CellId, Scalar};

/// Which writes go on a release sequence after its head.
#[derive(Clone, Copy, Debug, PartialEq, Eq)]
pub enum Rule {
    /// Updates, and atomic writes by the head's own thread (ISO/IEC 9899:2011).
    C11,
    /// Updates alone (ISO/IEC 14882:2020).
    Rmw,
}

/// What an access does to its cell.
#[derive(Clone, Copy, Debug, PartialEq, Eq)]
pub enum Mode {
    /// It takes the value at a position. A comparison that fails is a read too.
    Read,
    /// It makes the next position.
    Write,
    /// A read-modify-write: it takes the value at the newest position and makes the next one.
    Update,
}

/// What happened.
#[derive(Clone, Copy, Debug, PartialEq, Eq)]
pub enum Kind {
    /// An access of a cell. `position` is the one that a read reads, or that a write or update makes; position 0 is the
    /// initial write. `value` is the scalar that stands at that position.
    Access {
        mode: Mode,
        cell: CellId,
        order: Order,
        position: u32,
        value: Scalar,
    },
    /// A fence.
    Fence {
        order: Order,
    },
    /// The thread made a stack.
    NewStack {
        stack: u32,
    },
    /// The thread made a thread.
    NewThread {
        child: u32,
    },
    /// The thread left a stack.
    Leave {
        stack: u32,
    },
    /// The thread entered a stack.
    Enter {
        stack: u32,
    },
    /// The thread woke that many threads that waited at a cell.
    Wake {
        cell: CellId,
        count: u32,
    },
    /// The thread was woken by the event with that number.
    Woken {
        wake: u32,
    },
}

/// One event of a run. Its number is how many events came before it.
#[derive(Clone, Copy, Debug, PartialEq, Eq)]
pub struct Event {
    /// The thread whose event it is.
    pub thread: u32,
    /// What happened.
    pub kind: Kind,
}

/// An event of a log with its number.
#[derive(Clone, Copy)]
pub struct Numbered<'a> {
    /// How many events came before it.
    pub number: usize,
    /// The event.
    pub event: &'a Event,
}

/// What a thread wants of a cell.
#[derive(Clone, Copy, Debug, PartialEq, Eq)]
pub enum Wanted {
    /// To load it.
    Load {
        order: Order,
    },
    /// To update it whatever it holds.
    Swap,
    /// To update it with order `success` where it holds `expected`, else to read it with order `failure`. A weak
    /// comparison may fail on an equal value.
    Compare {
        success: Order,
        failure: Order,
        expected: Scalar,
        weak: bool,
    },
}

/// One option of what a thread wants.
#[derive(Clone, Copy, Debug, PartialEq, Eq)]
pub struct Chosen {
    /// The position whose value is taken.
    pub position: u32,
    /// The scalar at that position.
    pub value: Scalar,
    /// Whether it updates the cell: true of a swap and of a comparison that succeeds.
    pub success: bool,
}

/// A data race of a new event with an earlier one.
#[derive(Clone, Copy, Debug, PartialEq, Eq)]
pub struct Race {
    /// The number of the earlier event: of all that race with the new one, the least.
    pub earlier: u32,
}

/// Room for the events of one step.
#[derive(Clone, Copy, Debug, PartialEq, Eq)]
pub struct Room {
    /// The thread whose accesses it is for.
    pub thread: u32,
    /// The cell whose accesses it is for, if there are accesses.
    pub cell: Option<CellId>,
    /// How many events it is for.
    pub events: u32,
}
