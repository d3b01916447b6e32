// What holds of every step of a well-typed program.
ghost use Rattle.model_laws.specs.Laws.{FirstIsWellTyped, StepsGoWell, ClientsSettle, OperandsFit, StacksHaveOneOwner, LogsMeetAxioms, LogsAreRaceFree, ReadsWereOffered};
ghost use Rattle.model_laws.specs.Bounds.{FirstIsInBounds, StepsStayInBounds, RunsStaySmall, RunsEnd};
ghost use Rattle.model_laws.specs.Printable.{FirstIsPrintable, StepsStayPrintable};

/// A run of a well-typed program begins well typed, where it is given objects and a client that fit, and begins in a function that takes
/// nothing.
pub fn first_configuration_is_well_typed()
    ensures { FirstIsWellTyped }
{}

/// From a well-typed configuration of a well-typed program a step has a rule, and what follows is well typed, or an ending. Where the
/// client is asked it is shown kept values that fit their types, and after each of its answers that fits the step is settled so.
/// A client whose entries tell values that fit gives only such answers.
pub fn steps_are_never_stuck()
    ensures steps { StepsGoWell }
    ensures clients { ClientsSettle }
{}

/// Each thread that is left has an instruction in a well-typed configuration, and each of its operands that is read has a value that fits
/// its type.
pub fn operands_fit_their_types()
    ensures { OperandsFit }
{}

/// In a well-typed configuration no two threads are on one stack, and no thread is on two.
pub fn stacks_have_one_owner()
    ensures { StacksHaveOneOwner }
{}

/// The log of a well-typed configuration meets the axioms of memory, no two of its events race, and each of its reads was an option of its
/// past.
pub fn logs_meet_the_axioms()
    ensures axioms { LogsMeetAxioms }
    ensures races { LogsAreRaceFree }
    ensures reads { ReadsWereOffered }
{}

/// A step that goes on is counted and keeps the budget. It logs at most 66 events, and makes at most one object, one stack, and one frame
/// of a stack. So within a million steps the numbers of events, objects, stacks, threads and frames fit 32 bits, where the objects that
/// are given leave room for a million more.
pub fn runs_stay_in_bounds()
    ensures first { FirstIsInBounds }
    ensures steps { StepsStayInBounds }
    ensures small { RunsStaySmall }
{}

/// A run of a well-typed program from a well-typed configuration has an ending, within one step more than it may make.
pub fn runs_have_an_ending()
    ensures { RunsEnd }
{}

/// Each event that a run logs can be printed: it names stacks that exist, with an order of its kind. No object has more cells than the
/// setting allows.
pub fn logs_stay_printable()
    ensures first { FirstIsPrintable }
    ensures steps { StepsStayPrintable }
{}
