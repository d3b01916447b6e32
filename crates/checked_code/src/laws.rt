// Laws of the values of constants: each function is proved, and does nothing.
ghost use Rattle.checked_code.specs.ConstantLaws.{ValuesAreThoseOfTheirLiterals, ValuesFitTheirTypes};

/// In a bundle whose items meet their demands, the value of each constant is that of its literal, where its members have their values.
pub fn values_are_those_of_their_literals()
    ensures { ValuesAreThoseOfTheirLiterals }
{}

/// It has one scalar for each leaf of its type: an integer of the leaf's width where that is an int, and NULL where it is a reference.
pub fn values_fit_their_types()
    ensures { ValuesFitTheirTypes }
{}
