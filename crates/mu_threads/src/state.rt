/// The state of a thread.
#[derive(Clone, Copy, Debug, PartialEq, Eq)]
pub enum ThreadState {
    /// It may make the next step.
    Runs,
    /// It waits to be woken.
    Waits,
    /// It makes no step any more.
    Ended,
}
