// What a client answers.
use crate::notes::{Notes, Watches};
use mu_values::{Passed, Scalar};
use stacks::ReadyStack;
use text_forms::Listing;

/// A value with the class of its type.
#[derive(Drop)]
pub struct ClassedValue {
    pub class: u32,
    pub value: Listing<Scalar>,
}

/// What a stack is entered with.
#[derive(Drop)]
pub enum With {
    /// Values.
    Pass(Passed),
    /// An exception.
    Throw(ClassedValue),
}

/// How an answer ends. Each hands back the stack that was trapped.
#[derive(Drop)]
pub enum ReplyEnd {
    /// The trapped stack is entered.
    Resume {
        stack: ReadyStack,
        with: With,
    },
    /// Another stack is entered, and the trapped one stays ready. The target may be the trapped one.
    Rebind {
        stack: ReadyStack,
        target: ClassedValue,
        with: With,
    },
    /// The thread ends, and the trapped stack stays ready.
    Exit {
        stack: ReadyStack,
    },
    /// The run ends.
    Stop {
        stack: ReadyStack,
    },
}

/// What an answer does to the frames of the trapped stack. `pop` is the number of a frame, from the top down: the frames above it end, and
/// 0 ends none. Then a frame of the function with the number `push` is put on top, where there is one.
#[derive(Clone, Copy, Debug, PartialEq, Eq)]
pub struct Edit {
    pub pop: u32,
    pub push: Option<u32>,
}

/// Nothing: no frame is popped, and none is pushed.
pub const NO_EDIT: Edit = Edit { pop: 0, push: None };

/// An answer.
#[derive(Drop)]
pub struct Reply {
    /// What is recorded, in order.
    pub notes: Notes,
    /// Which watchpoints are enabled or not from then on, in order.
    pub watches: Watches,
    /// What is done to the frames of the trapped stack after that.
    pub edit: Edit,
    pub end: ReplyEnd,
}

/// Why there is no reply. Each hands back the stack that was trapped.
#[derive(Drop)]
pub enum ClientFault {
    /// The answer names a frame or a kept value that is not there, or a stack to enter whose type is not `stackref`.
    Misuse(ReadyStack),
    /// No memory was found.
    Memory(ReadyStack),
}
