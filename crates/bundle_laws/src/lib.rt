//! The law of checked bundles: their code is well typed.
#![tactic(auto)]

mod code;
mod laws;

pub use code::{
    arguments_fit, blocks_fit, bound_fits, destinations_fit, endings_give_nothing,
    fits_at_its_place, forms_fit, goes_on, instructions_fit, lists_fit, no_locals_fit,
    operands_fit, variables_fit,
};
pub use laws::{accepted_blocks_fit, accepted_code_fits, accepted_tables_fit};
