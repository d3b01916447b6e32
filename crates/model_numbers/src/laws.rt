// Laws of the two readings of a bundle: each function is proved, and does nothing.
ghost use Rattle.model_numbers.specs.Laws.{ProgramsAreSame, DoingsAreSame, GoingsOnAreSame, HandlersAreSame, BodiesAreOfDefinitions, LocalsAreInOrder, LabelsLeadToBlocks, TablesAreSame, StepsAreSame, RunsAreSame, WidthsAreWritten};

/// A bundle that meets its demands is one program by name and by number.
pub fn programs_are_same()
    ensures { ProgramsAreSame }
{}

/// Each instruction does the same, with any values of its block's variables.
pub fn doings_are_same()
    ensures { DoingsAreSame }
{}

/// Each instruction goes on at the same place.
pub fn goings_on_are_same()
    ensures { GoingsOnAreSame }
{}

/// The same blocks have a handler.
pub fn handlers_are_same()
    ensures { HandlersAreSame }
{}

/// Each function begins with the first block of its definition. This holds of every bundle.
pub fn bodies_are_of_definitions()
    ensures { BodiesAreOfDefinitions }
{}

/// A local name has the value at its place among the names of its block.
pub fn locals_are_in_order()
    ensures { LocalsAreInOrder }
{}

/// A label leads to the first block with its name in the same function. This holds of every bundle.
pub fn labels_lead_to_blocks()
    ensures { LabelsLeadToBlocks }
{}

/// The tables are the same. This holds of every bundle.
pub fn tables_are_same()
    ensures { TablesAreSame }
{}

/// From one configuration the step is the same.
pub fn steps_are_same()
    ensures { StepsAreSame }
{}

/// From one setting the run is the same.
pub fn runs_are_same()
    ensures { RunsAreSame }
{}

/// The width that the class of an int type has is the one that is written.
pub fn widths_are_written()
    ensures { WidthsAreWritten }
{}
