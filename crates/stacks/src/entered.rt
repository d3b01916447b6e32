use mu_values::{Passed, Scalar};

/// With what a stack was entered.
#[derive(Drop)]
pub enum Entered {
    /// With values, of the types that it waited for.
    Values(Passed),
    /// With an exception.
    Thrown(Scalar),
}
