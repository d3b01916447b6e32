// The constants of a bundle, by number.
use mu_values::Literal;

/// A constant: the number of its type in the graph, and what it is written as.
#[derive(Drop)]
pub struct Constant {
    pub of_type: u32,
    pub literal: Literal,
}
