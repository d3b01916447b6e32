// What stacks are entered with.
use mu_values::Scalar;

/// What a stack is entered with. Values that are passed, and their classes, stand in the room that the operands were read into.
#[derive(Clone, Copy, Debug, PartialEq, Eq)]
pub enum Entering {
    /// Values of some classes.
    Passes,
    /// An exception.
    Throws(Scalar),
    /// What fits no stack.
    Misfits,
}
