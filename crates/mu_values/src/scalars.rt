// Scalars and lists of them.
use mu_base::Items;

/// What one cell, or one leaf of a type, holds.
#[derive(Clone, Copy, Debug, PartialEq, Eq)]
pub enum Scalar {
    /// An integer of that many bits, 1 to 128, as the number from 0 to 2^width - 1 that its bits write.
    Int { width: u32, bits: u128 },
    /// The NULL of every type of references.
    Null,
    /// A reference to the object with that number.
    Object(u32),
    /// A place in an object: one of its cells, or, where `at` is the number of its cells, its end.
    Place { object: u32, at: u32 },
    /// A function, by its number in the bundle.
    Func(u32),
    /// A stack, by its number.
    Stack(u32),
    /// A thread, by its number.
    Thread(u32),
}

/// A value: one scalar for each leaf of its type, from left to right.
pub type Value = Items<Scalar>;
