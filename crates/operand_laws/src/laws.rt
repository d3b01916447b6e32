// What holds of the operands of instructions, and of the turn that a step is.
ghost use Rattle.operand_laws.specs.Laws.{MomentsOfTextsHaveOperands};
ghost use Rattle.operand_laws.specs.Picks.{StepsAreTurns, StepsMadeAreTurns};

/// At each moment of the run of a function that may be entered, in a setting that fits, the top frame of each thread that is left stands
/// before an instruction. Each operand of that instruction has a value there, which fits the type that the typing rules ask of it: so it is
/// of the operands of its form, of the arguments of where an exception goes, of the variables that are kept, and, once it has results, of
/// the arguments of where it goes on with them, also where these are of what was made meanwhile.
pub fn operands_have_values()
    ensures { MomentsOfTextsHaveOperands }
{}

/// Each step is the turn of the thread that the schedule picks among those that may be picked, or the ending of a run that picks no more:
/// no thread is left, all that are left wait without a limit, or no step is left. A step that goes on is such a turn. This holds of every program.
pub fn steps_are_turns()
    ensures each { StepsAreTurns }
    ensures made { StepsMadeAreTurns }
{}
