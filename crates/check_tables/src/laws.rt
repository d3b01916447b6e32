// Laws of the definitions, each the contract of a function that does nothing.
ghost use Rattle.check_tables.specs.Laws.{ImpliedTypesAreDefined};

/// The classes of `int<1>`, `int<32>`, `stackref`, `threadref` and `ref<void>` are numbers of types that are defined so.
pub fn implied_types_are_defined()
    ensures { ImpliedTypesAreDefined }
{}
