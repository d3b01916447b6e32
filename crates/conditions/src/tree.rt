// A condition as it is read.
use text_forms::Listing;

/// What a condition says of the outcomes.
#[derive(Clone, Copy, Debug, PartialEq, Eq)]
pub enum Claim {
    /// One of its lists holds in some outcome
    Exists,
    /// None of its lists holds in any outcome
    Never,
    /// One of its lists holds in each outcome
    Always,
}

/// A value, as an outcome prints it.
#[derive(Clone, Copy, Debug, PartialEq, Eq)]
pub enum Value {
    /// A number, as its bits write it: from 0 to 2^width - 1
    Number(u128),
    /// NULL, of whatever type
    Null,
    /// Any other: a reference, a function, or numbers in braces. No condition names one, so it is the same as none
    Other,
}

/// How a run ends, without what the ending says besides.
#[derive(Clone, Copy, Debug, PartialEq, Eq)]
pub enum Ending {
    /// No thread is left
    Done,
    /// Each thread that is left waits
    Waiting,
    /// The client stopped the run
    Stop,
    /// A thread asked for more cells than were left
    HeapFull,
    /// A thread asked for one thread more than there may be
    ThreadsFull,

    // the undefined cases, under their names
    DivideByZero,
    NullAccess,
    OutOfRange,
    BadCast,
    DeadCell,
    DataRace,
    StackNotReady,
    StackTypes,
    Uncaught,
    NullCall,
    NoBody,
    ClientMisuse,
}

/// What is asked of an outcome.
#[derive(Clone, Copy, Debug, PartialEq, Eq)]
pub enum Atom {
    /// That thread returned, and of the values that it returned the one with that number, from 0, is this
    Returned {
        thread: u32,
        number: u32,
        value: Value,
    },
    /// The global with that number holds this at the end
    Final {
        global: u32,
        value: Value,
    },
    /// The run ends so
    Ends(Ending),
}

/// A condition: what it claims, and lists of which one is to hold. A list holds where each of its members does.
#[derive(Drop)]
pub struct Condition {
    pub claim: Claim,
    pub lists: Listing<Listing<Atom>>,
}
