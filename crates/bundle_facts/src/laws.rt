// Facts of checked bundles: each function is proved, and does nothing.
ghost use Rattle.bundle_facts.specs.Facts.{WidthsAreAllowed, WidthsAreNarrow, GlobalsAreTypes, ClassesAreDefined, HaveOneShape, PartsHaveClasses, ClassesDecideFits, LeavesOfClasses, RefsAreDefined, IrefsAreDefined, FuncrefsAreDefined, TypesAreThere, ZerosFit, SignaturesAreDefined, ClassesDecideSignatures, FuncrefsDecideSignatures, FunctionsHaveSignatures, FunctionsAreThere, FunctionValuesFit, FunctionsOfClassFit, CalledFunctionsFit, ConstantValuesFit, ConstantsHaveClasses, IntConstantsAreScalars, FirstBlocksFit};
ghost use Rattle.bundle_facts.specs.Spelled.{NamesOfTextsAreSpelled};
ghost use Rattle.bundle_facts.specs.Texts.{DerivedHaveBlocks};

/// Every int type has an allowed width.
pub fn widths_are_allowed()
    ensures { WidthsAreAllowed }
{}

/// The class of a written type is in the graph, and its definition agrees with the type's.
pub fn classes_are_defined()
    ensures { ClassesAreDefined }
{}

/// The definition of a class has the shape of its types' definitions.
pub fn have_one_shape()
    ensures { HaveOneShape }
{}

/// What a written type is made of has a class.
pub fn parts_have_classes()
    ensures { PartsHaveClasses }
{}

/// What leaves a type has, and what fits it, depends on its class alone.
pub fn classes_decide_fits()
    ensures { ClassesDecideFits }
{}

/// The leaves of a class are those of its parts.
pub fn leaves_of_classes()
    ensures { LeavesOfClasses }
{}

/// The class of references to objects of a type is defined as such.
pub fn refs_are_defined()
    ensures { RefsAreDefined }
{}

/// The class of references to places of a type is defined as such.
pub fn irefs_are_defined()
    ensures { IrefsAreDefined }
{}

/// The class of references to functions of a signature is defined as such.
pub fn funcrefs_are_defined()
    ensures { FuncrefsAreDefined }
{}

/// The types that every bundle has are there.
pub fn types_are_there()
    ensures { TypesAreThere }
{}

/// What the leaves of a type begin with fits them.
pub fn zeros_fit()
    ensures { ZerosFit }
{}

/// Each signature takes, gives, has the class and the references to functions of one definition.
pub fn signatures_are_defined()
    ensures { SignaturesAreDefined }
{}

/// Signatures of one class take and give the same.
pub fn classes_decide_signatures()
    ensures { ClassesDecideSignatures }
{}

/// Signatures to which the same references lead have one class.
pub fn funcrefs_decide_signatures()
    ensures { FuncrefsDecideSignatures }
{}

/// Each function has a signature.
pub fn functions_have_signatures()
    ensures { FunctionsHaveSignatures }
{}

/// The functions of the tables are those of the code.
pub fn functions_are_there()
    ensures { FunctionsAreThere }
{}

/// A function is a value of the class of references to functions of its signature.
pub fn function_values_fit()
    ensures { FunctionValuesFit }
{}

/// A function whose signature has the class of another takes and gives what that does.
pub fn functions_of_class_fit()
    ensures { FunctionsOfClassFit }
{}

/// A function that is a value of a signature's class of references takes and gives what the signature does.
pub fn called_functions_fit()
    ensures { CalledFunctionsFit }
{}

/// The value of each constant fits its class.
pub fn constant_values_fit()
    ensures { ConstantValuesFit }
{}

/// The class of each constant is in the graph.
pub fn constants_have_classes()
    ensures { ConstantsHaveClasses }
{}

/// The value of a constant of an int type is one scalar.
pub fn int_constants_are_scalars()
    ensures { IntConstantsAreScalars }
{}

/// The first block of a function takes what its signature takes, has no handler, and its definition gives what the signature gives.
pub fn first_blocks_fit()
    ensures { FirstBlocksFit }
{}

/// Each function that is defined in a bundle that the grammar derives has a block, so the law of first blocks holds of all bundles that are read.
pub fn derived_have_blocks()
    ensures { DerivedHaveBlocks }
{}

/// The widths of ints are numbers of 32 bits.
pub fn widths_are_narrow()
    ensures { WidthsAreNarrow }
{}

/// The class of each global is in the graph.
pub fn globals_are_types()
    ensures { GlobalsAreTypes }
{}

/// In a bundle that is read from a text the names of functions, of their versions and of their blocks are spelled as names.
pub fn names_are_spelled()
    ensures { NamesOfTextsAreSpelled }
{}
