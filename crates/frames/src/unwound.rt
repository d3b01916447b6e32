/// Where an exception goes that reaches the frames of a stack.
#[derive(Clone, Copy, Debug, PartialEq, Eq)]
pub enum Unwound {
    /// To the exceptional destination of the frame that stands so many frames below the top.
    Caught(u32),
    /// Nowhere: no frame has an exceptional destination.
    Uncaught,
}
