// Acts.
use crate::access::Access;
use crate::entering::Entering;
use crate::way::Way;
use mu_base::Order;
use mu_model::Case;
use mu_values::{CellId, Scalar};

/// What an instruction does, once its operands are read. Types stand by class, blocks and functions by number; the values and classes
/// that go with an act stand in the room that its operands were read into.
#[derive(Clone, Copy, Debug, PartialEq, Eq)]
pub enum Act {
    /// It gives its one result this value of one scalar.
    Gives(Scalar),
    /// It gives its results the values in the room.
    GivesValues,
    /// It meets an undefined case.
    Faults(Case),
    /// Another block of the function, whose parameters are the values in the room.
    Goes {
        block: u32,
    },
    /// Another function in a frame above, with the values in the room.
    Calls {
        function: u32,
    },
    /// Another function in place of this frame, with the values in the room.
    Replaces {
        function: u32,
    },
    /// Back from the function, with the values in the room and their classes there.
    Returns,
    /// An exception.
    Throws(Scalar),
    /// A reference as one of the class.
    Casts {
        class: u32,
        scalar: Scalar,
    },
    /// A place, found from another.
    Finds {
        way: Way,
        scalar: Scalar,
    },
    /// An object of the class.
    Makes {
        class: u32,
    },
    /// An object of the class, with so many elements.
    MakesHybrid {
        class: u32,
        many: u128,
    },
    /// An object of the class, which the frame owns.
    MakesOwn {
        class: u32,
    },
    /// An access of a cell.
    Accesses {
        access: Access,
        cell: CellId,
    },
    /// A fence.
    Fences(Order),
    /// The client is asked for values of the classes in the room.
    Traps,
    /// The same, but where the watchpoint is disabled: then another block, whose parameters are the values in the room.
    Watches {
        watchpoint: u32,
        block: u32,
    },
    /// One block where the watchpoint is disabled, whose parameters are the values in the room, and else another one, whose parameters
    /// are the other values there.
    Chooses {
        watchpoint: u32,
        disabled: u32,
        enabled: u32,
    },
    /// Another stack is entered, and this one waits for values of the classes in the room.
    Swaps {
        stack: Scalar,
        entering: Entering,
    },
    /// Another stack is entered, and this one ends.
    Leaves {
        stack: Scalar,
        entering: Entering,
    },
    /// A thread on the stack, with its own object.
    Starts {
        stack: Scalar,
        own: Scalar,
        entering: Entering,
    },
    /// A stack of the function.
    MakesStack {
        function: u32,
    },
    /// The stack ends.
    KillsStack {
        stack: Scalar,
    },
    /// The thread's stack is told.
    Tells,
    /// The thread ends.
    Exits,
    /// The thread's own object is set.
    SetsOwn(Scalar),
    /// The thread's own object is told.
    TellsOwn,
    /// Waiting at the cell while it holds what is expected, with a limit or without.
    Waits {
        timed: bool,
        expected: Scalar,
        cell: CellId,
    },
    /// So many are woken that wait at the cell.
    Wakes {
        many: u32,
        cell: CellId,
    },
}
