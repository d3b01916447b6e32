/// The state of a stack.
#[derive(Clone, Copy, Debug, PartialEq, Eq)]
pub enum StackState {
    /// It may be entered.
    Ready,
    /// It was taken for the thread with this number.
    Active(u32),
    /// Its frames have ended.
    Dead,
}

/// A stack was to be ready and is not.
#[derive(Clone, Copy, Debug, PartialEq, Eq)]
pub struct NotReady {
    /// The state that it is in.
    pub state: StackState,
}
