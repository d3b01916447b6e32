// Accesses of cells.
use mu_base::{Order, UpdateOp};
use mu_values::Scalar;

/// What is done with a cell.
#[derive(Clone, Copy, Debug, PartialEq, Eq)]
pub enum Access {
    /// It is read.
    Loads {
        order: Order,
    },
    /// It is written.
    Stores {
        order: Order,
        scalar: Scalar,
    },
    /// It is written with the order `success` where it holds what is expected, else it is read with the order `failure`. A weak
    /// comparison may fail on an equal scalar.
    Compares {
        weak: bool,
        success: Order,
        failure: Order,
        expected: Scalar,
        desired: Scalar,
    },
    /// It is read, and written with what the operation makes of what was read.
    Updates {
        order: Order,
        op: UpdateOp,
        operand: Scalar,
    },
}
