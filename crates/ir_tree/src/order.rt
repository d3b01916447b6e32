// Memory orders as they are written.
use mu_base::Order;

/// A memory order, with the place of its word. Where it was left out it is `NotAtomic`, with the place of the instruction's word.
#[derive(Clone, Copy, Debug, PartialEq, Eq)]
pub struct WrittenOrder {
    pub place: usize,
    pub order: Order,
}
