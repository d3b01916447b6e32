/// A cell: the number of its object, and its place among the cells of the object, from 0.
#[derive(Clone, Copy, Debug, PartialEq, Eq)]
pub struct CellId {
    pub object: u32,
    pub at: u32,
}
