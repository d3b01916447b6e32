// Laws of verdicts.
ghost use Rattle.verdicts.specs.Laws.{YesIsExact, RevaluedIsYes, NewestBreaksBelowFloor, PairIsOfRead};

/// The verdict is Yes exactly where the log meets the axioms, its initial scalars not being known, and no two of its events race.
pub fn yes_is_exact()
    ensures { YesIsExact }
{}

/// A Yes stays where values are replaced so that equal values of one cell stay equal.
pub fn values_do_not_matter()
    ensures { RevaluedIsYes }
{}

/// After a log without faults, an event that fits the form breaks axiom 1 or 3 exactly where it reads a position below its floor.
pub fn reads_break_below_the_floor()
    ensures { NewestBreaksBelowFloor }
{}

/// The pair that the verdict names for a read that breaks axiom 3 is found among the SEQ_CST events that the read passes over, and those
/// that come before it.
pub fn pair_is_of_the_read()
    ensures { PairIsOfRead }
{}
