// The parts of objects.

/// A part of an object, or a whole one.
#[derive(Clone, Copy, Debug, PartialEq, Eq)]
pub enum Part {
    /// A value of a type.
    Value(u32),
    /// A whole object of a hybrid, with so many elements.
    Hybrid { of_type: u32, many: u128 },
    /// The elements of a hybrid: so many values of a type.
    Elements { of_type: u32, many: u128 },
}

/// A part of an object that begins at an offset.
#[derive(Clone, Copy, Debug, PartialEq, Eq)]
pub struct Spot {
    pub object: u32,
    pub at: u32,
    pub part: Part,
}

/// What is known of an object of the script: its number, and what it is.
#[derive(Clone, Copy, Debug, PartialEq, Eq)]
pub struct Made {
    pub object: u32,
    pub part: Part,
}
