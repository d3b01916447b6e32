//! Facts of every bundle that meets its demands: of its types, signatures, functions, constants and first blocks. This crate has no code:
//! each function does nothing, and its contract is a law.
#![tactic(auto)]

mod laws;

pub use laws::{
    called_functions_fit, classes_are_defined, classes_decide_fits, classes_decide_signatures,
    constant_values_fit, constants_have_classes, derived_have_blocks, first_blocks_fit,
    funcrefs_are_defined, funcrefs_decide_signatures, function_values_fit, functions_are_there,
    functions_have_signatures, functions_of_class_fit, globals_are_types, have_one_shape,
    int_constants_are_scalars, irefs_are_defined, leaves_of_classes, names_are_spelled,
    parts_have_classes, refs_are_defined, signatures_are_defined, types_are_there,
    widths_are_allowed, widths_are_narrow, zeros_fit,
};
