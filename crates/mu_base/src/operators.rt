// Operators, which the text, the checker and the machine share.

/// An operation on two integers of one width.
#[derive(Clone, Copy, Debug, PartialEq, Eq)]
pub enum BinaryOp {
    Add,
    Sub,
    Mul,
    /// Signed quotient, rounded toward zero.
    Sdiv,
    /// Signed remainder, with the sign of the left operand.
    Srem,
    Udiv,
    Urem,
    /// Shifts are by the right operand modulo the width.
    Shl,
    Lshr,
    /// A shift that copies the sign.
    Ashr,
    And,
    Or,
    Xor,
}

/// A comparison. `S` is signed, `U` unsigned.
#[derive(Clone, Copy, Debug, PartialEq, Eq)]
pub enum CompareOp {
    Eq,
    Ne,
    Slt,
    Sle,
    Sgt,
    Sge,
    Ult,
    Ule,
    Ugt,
    Uge,
}

/// A change of an integer's width.
#[derive(Clone, Copy, Debug, PartialEq, Eq)]
pub enum ConvertOp {
    /// The low bits.
    Trunc,
    /// Zeros in front.
    Zext,
    /// Copies of the sign in front.
    Sext,
}

/// An update of a cell. All but `Xchg` are of integers.
#[derive(Clone, Copy, Debug, PartialEq, Eq)]
pub enum UpdateOp {
    /// What is given takes the place of what was there.
    Xchg,
    Add,
    Sub,
    And,
    /// The complement of `And`.
    Nand,
    Or,
    Xor,
    /// The greater one of the two as signed integers.
    Max,
    /// The less one of the two as signed integers.
    Min,
    /// The greater one of the two as unsigned integers.
    Umax,
    /// The less one of the two as unsigned integers.
    Umin,
}
