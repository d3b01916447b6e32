// Laws of demands on code: each function is proved, and does nothing.
ghost use Rattle.bundle_laws.specs.TypedLaws.{OperandsFit, ArgumentsFit, DestinationsFit, NoLocalsFit, BoundFits, FormsFit, InstructionsFit, VariablesFit, ListsFit, BlocksFit, FitsAtItsPlace, GoesOn, EndingsGiveNothing};

/// An operand that meets its demands has the class that is wanted.
pub fn operands_fit()
    ensures { OperandsFit }
{}

/// Arguments that meet their demands have the classes that are wanted.
pub fn arguments_fit()
    ensures { ArgumentsFit }
{}

/// A destination that meets its demands is there, and its arguments are of the block's parameters.
pub fn destinations_fit()
    ensures { DestinationsFit }
{}

/// A block without variables is known.
pub fn no_locals_fit()
    ensures { NoLocalsFit }
{}

/// So is one with one more variable.
pub fn bound_fits()
    ensures { BoundFits }
{}

/// Each form that meets its demands is well typed.
pub fn forms_fit()
    ensures { FormsFit }
{}

/// Each instruction that meets its demands is well typed.
pub fn instructions_fit()
    ensures { InstructionsFit }
{}

/// The variables behind an instruction are those before it and its results.
pub fn variables_fit()
    ensures { VariablesFit }
{}

/// Instructions that meet their demands are well typed, each with the variables before it.
pub fn lists_fit()
    ensures { ListsFit }
{}

/// A block that meets its demands is well typed, and its last instruction alone ends it.
pub fn blocks_fit()
    ensures { BlocksFit }
{}

/// In well typed code, what is known of an instruction at its place.
pub fn fits_at_its_place()
    ensures { FitsAtItsPlace }
{}

/// In well typed code, something stands behind each instruction that does not end its block.
pub fn goes_on()
    ensures { GoesOn }
{}

/// In well typed code, an instruction that ends its block and has no normal destination gives nothing.
pub fn endings_give_nothing()
    ensures { EndingsGiveNothing }
{}
