// A script as it is read: a name is what it stands for in the bundle.
use crate::mentions::Mention;
use text_forms::Listing;

/// A value that a script gives.
#[derive(Drop)]
pub enum Argument {
    /// A constant, a global or a function: the class of its type, and its scalars
    Told { class: u32, value: Mention },
    /// A kept value of a frame, by the numbers of the frame, where 0 is the top, and of the value
    KeptValue { frame: u32, value: u32 },
}

/// What an entry does before its reply.
#[derive(Clone, Copy, Debug, PartialEq, Eq)]
pub enum Action {
    /// Records all frames from the top
    TellFrames,
    /// Records the kept values of a frame
    TellKept(u32),
    /// Enables a watchpoint, or disables it
    Watch { watchpoint: u32, enabled: bool },
}

/// A function whose frame is put on top, with the class of its type.
#[derive(Clone, Copy, Debug, PartialEq, Eq)]
pub struct Pushed {
    pub class: u32,
    pub function: u32,
}

/// What an entry does to the frames of the trapped stack. `pop` is the number of a frame, from the top down: the frames above it end, and
/// 0 ends none. Then a frame of the function is put on top, where there is one.
#[derive(Clone, Copy, Debug, PartialEq, Eq)]
pub struct Edit {
    pub pop: u32,
    pub push: Option<Pushed>,
}

/// What a stack is entered with.
#[derive(Drop)]
pub enum With {
    /// Values
    Pass(Listing<Argument>),
    /// An exception
    Throw(Argument),
}

/// How an entry ends.
#[derive(Drop)]
pub enum Reply {
    /// The trapped stack is entered
    Resume(With),
    /// Another stack is entered
    Rebind { stack: Argument, with: With },
    /// The thread ends
    Exit,
    /// The run ends
    Stop,
}

/// What answers one trap: the actions come first, then the edit, and then the reply.
#[derive(Drop)]
pub struct Entry {
    pub actions: Listing<Action>,
    pub edit: Edit,
    pub reply: Reply,
}
