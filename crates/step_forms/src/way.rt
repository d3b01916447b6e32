// Ways from one place to another.

/// How a place is found from another, in a value of a class.
#[derive(Clone, Copy, Debug, PartialEq, Eq)]
pub enum Way {
    /// A fixed field, by its number.
    Field { class: u32, field: usize },
    /// An element of an array, by its index.
    Element { class: u32, index: i128 },
    /// So many values of the class behind the place, or before it.
    Shift { class: u32, by: i128 },
    /// What a hybrid has any number of.
    VarPart { class: u32 },
}
