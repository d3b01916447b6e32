// How a run ends.
use crate::lines::Lines;
use mem_axioms::Event;
use text_forms::Listing;

/// What an instruction may meet that has no meaning. A zero divisor and an access through NULL are faults: where their instruction has
/// an exceptional destination, they go there, and the run goes on.
#[derive(Clone, Copy, Debug, PartialEq, Eq)]
pub enum Case {
    /// A division by zero.
    DivideByZero,
    /// An access or a place that is found through NULL.
    NullAccess,
    /// A place that is not in its object, or not where the type is found; or an access at the end of an object.
    OutOfRange,
    /// A reference that does not fit the type that it is cast to.
    BadCast,
    /// An access of a cell whose frame ended.
    DeadCell,
    /// Two accesses of one cell by two threads, not both atomic, one of them a write, neither happening before the other.
    DataRace,
    /// A stack that is entered or killed is not ready, or NULL.
    StackNotReady,
    /// A stack is entered with values of other types than it waits for, or with an exception of a type other than `ref<void>`.
    StackTypes,
    /// No frame of the stack has a destination for the exception.
    Uncaught,
    /// A NULL function is called or given a stack.
    NullCall,
    /// A function that is only declared is called or given a stack.
    NoBody,
    /// The client's answer names a frame or a kept value that is not there, or a stack to enter whose type is not `stackref`.
    ClientMisuse,
}

/// A data race.
#[derive(Clone, Copy, Debug, PartialEq, Eq)]
pub struct Raced {
    /// The new event, which is not in the log.
    pub event: Event,
    /// The number of the earlier event: of all that race with the new one, the least.
    pub earlier: u32,
}

/// How a run ends. Threads and blocks stand by number.
#[derive(Drop)]
pub enum Ending {
    /// No thread is left.
    Done,
    /// The client stopped the run.
    Stop,
    /// The thread's instruction, by its block and its place there from 0, met an undefined case. `race` is there where the case is a
    /// data race, and at no other.
    Undefined {
        case: Case,
        thread: u32,
        block: u32,
        at: u32,
        race: Option<Raced>,
    },
    /// The thread asked for more cells than are left.
    HeapFull {
        thread: u32,
        asked: u128,
        left: u32,
    },
    /// The thread asked for one more thread where as many as may be were made.
    ThreadsFull {
        thread: u32,
    },
    /// These threads are left, in rising number, and each waits without a limit.
    AllWaiting {
        threads: Listing<u32>,
    },
    /// A thread could go on, but that many steps were made, which are all that the run may make.
    Budget {
        steps: u32,
    },
}

/// What comes of a step.
#[derive(Drop)]
pub enum StepEnd {
    /// The run goes on, and the step wrote these lines.
    Went(Lines),
    /// The run ends so, and the step wrote these lines before.
    Ended(Lines, Ending),
}
