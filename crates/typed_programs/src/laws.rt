// What holds of every run of an accepted bundle.
ghost use Rattle.typed_programs.specs.Laws.{AcceptedIsTyped, NumberedIsTyped, RunsHaveAnEnding, NeverBreaks, PlainRunsHaveAnEnding, PlainRunsNeverBreak};

/// A bundle that meets its demands, and whose functions have blocks, is a well-typed program: with values that fit the variables of a
/// place each instruction does what fits, so no operand lacks a value or has another type.
pub fn accepted_bundles_are_typed()
    ensures { AcceptedIsTyped }
{}

/// Such a bundle is a well-typed program by the numbers of its checked code too, with the same types of its variables. So what holds of
/// the steps of every well-typed program, as that each has a rule, holds of it as a machine over checked code sees it.
pub fn numbered_bundles_are_typed()
    ensures { NumberedIsTyped }
{}

/// A run of such a bundle with objects and a client that fit, in a function that takes nothing and has a block, has an ending: no step of
/// it is without a rule.
pub fn runs_never_break()
    ensures endings { RunsHaveAnEnding }
    ensures breaks { NeverBreaks }
{}

/// A plain run, which is given the objects of the globals and a client without entries, has an ending, whatever its schedule, its room
/// and its rule of release sequences: no step of it is without a rule.
pub fn plain_runs_never_break()
    ensures endings { PlainRunsHaveAnEnding }
    ensures breaks { PlainRunsNeverBreak }
{}
