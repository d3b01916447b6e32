// What becomes of an item.
use crate::fault::JoinKind;

/// What becomes of an item that is to go into the joined bundle.
#[derive(Clone, Copy)]
pub enum Verdict {
    /// It goes into the joined bundle.
    Kept,
    /// An earlier bundle says the same.
    LeftOut,
    /// There is no joined bundle: why, and the place in the text of its bundle.
    Refused { kind: JoinKind, place: usize },
}
