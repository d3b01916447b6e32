// Laws of the memory model, each the contract of a function that does nothing: to call it is to know its law. They hold
// under both rules of release sequences. Their statements stand in `Theorems`, `OptionTheorems` and `RunTheorems` of
// `specs`, their proofs below `specs/Lemmas`.
ghost use Rattle.mem_axioms.specs.Theorems.{EventsStay, PastsStay, HappensBeforeStays, HeadsRise, ReleasedIsAllowed, HappensBeforeIsLeast, HappensBeforeGoesOn, CoherentIsRelation, SeqCstOrderedIsRelation, MeetsAxiomsIsRelation, RaceIsLeast, RaceFreeIsRelation, FormStandsAlone, FormHasInitials, OtherInitialsDoNotMatter};
ghost use Rattle.mem_axioms.specs.OptionTheorems.{OptionsReachFloor, OptionIsFromFloor, FloorIsReached, OptionsAreCounted, OptionsAreNumbered, NewestIsOption, NewestIsFirst, NewestIsFirstChoice, SomeChoice, ChoicesDiffer, ChoicesStand, ChoicesFit, ModificationsKeepAxioms, OthersKeepAxioms, FittingEventsKeepAxioms};
ghost use Rattle.mem_axioms.specs.RunTheorems.{ModificationsFit, OthersFit, ThreadsStay, ThreadsAreMade, ThreadsAreSame, WakesAreNumbered, WakesStay, EmptyLogIsSound, FittingEventsStaySound, OthersDoNotRace, PastsMeetAxioms, WritesWereNext, ReadsWereOptions, ValuesAreWritten, CellsStayThere, InitialsStay, OptionsStay, EventsStillFit, LogsStaySound};
ghost use Rattle.std.specs.Prelude.{ℕ, List};
ghost use Rattle.mu_values.specs.declared.scalars.Scalar.{Scalar};
ghost use Rattle.mem_axioms.specs.declared.types.Rule.{Rule};
ghost use Rattle.mem_axioms.specs.declared.types.Event.{Event};

/// Extension: adding an event at the end changes neither synchronizes-with nor happens-before between earlier events.
pub fn earlier_order_stays()
    ensures events { EventsStay }
    ensures pasts { PastsStay }
    ensures happens_before { HappensBeforeStays }
{}

/// Own synchronization: what a read synchronizes with by a release never forbids the position that it reads.
pub fn released_position_is_allowed()
    ensures heads { HeadsRise }
    ensures released { ReleasedIsAllowed }
{}

/// Happens-before is the least transitive relation that holds sequenced-before and synchronizes-with, and goes from
/// earlier events to later ones.
pub fn happens_before_is_least()
    ensures least { HappensBeforeIsLeast }
    ensures order { HappensBeforeGoesOn }
{}

/// The tests of the axioms hold exactly where the relations do.
pub fn axioms_are_relations()
    ensures coherent { CoherentIsRelation }
    ensures seq_cst_ordered { SeqCstOrderedIsRelation }
    ensures meets_axioms { MeetsAxiomsIsRelation }
{}

/// The race that is named is the one with the least earlier event, and none is named exactly where none is.
pub fn least_race_is_named()
    ensures race { RaceIsLeast }
    ensures race_free { RaceFreeIsRelation }
{}

/// Floor: the options of a load are all positions from the newest down to a floor.
pub fn options_reach_a_floor()
    ensures options { OptionsReachFloor }
    ensures option { OptionIsFromFloor }
    ensures reached { FloorIsReached }
    ensures number { OptionsAreCounted }
    ensures position { OptionsAreNumbered }
{}

/// The newest position is an option of every load, and the first: choice 0 of a load is it, with its value. Whatever is
/// wanted has an option.
pub fn newest_is_an_option()
    ensures option { NewestIsOption }
    ensures first { NewestIsFirst }
    ensures first_choice { NewestIsFirstChoice }
    ensures choice { SomeChoice }
{}

/// No two options of what is wanted are the same choice.
pub fn choices_differ()
    ensures { ChoicesDiffer }
{}

/// Each choice has the value at its position, which is the newest where it succeeds, else an option of a load. So the read or
/// update that it stands for may come next.
pub fn choices_may_be_taken()
    ensures stand { ChoicesStand }
    ensures fit { ChoicesFit }
{}

/// Preservation: a log that meets the axioms meets them again after a write or update at the next position, after an
/// event that is no access, and after each event that fits a run.
pub fn axioms_are_kept()
    ensures modifications { ModificationsKeepAxioms }
    ensures others { OthersKeepAxioms }
    ensures fitting { FittingEventsKeepAxioms }
{}

/// A log has the form without initial scalars exactly where it has it with some; and only the initial scalars of the cells
/// that it accesses matter.
pub fn accessed_initials_matter()
    ensures alone { FormStandsAlone }
    ensures initials { FormHasInitials }
    ensures others { OtherInitialsDoNotMatter }
{}

/// A write or update at the next position may come next, where its thread was made and its cell is there. An event that is
/// no access may come next where its thread was made; a new thread must be new and below 64, a wake's cell there, and the
/// wake of a woken event earlier.
pub fn next_events_fit()
    ensures modifications { ModificationsFit }
    ensures others { (rule : Rule) (objects : List (List Scalar)) (log : List Event) (thread : ℕ) → OthersFit rule objects log thread }
{}

/// A thread that was made stays so, and one more event makes no thread but the one that it names. A wake is numbered by the
/// events before it, and stays a wake.
pub fn threads_and_wakes_stay()
    ensures threads { ThreadsStay }
    ensures made { ThreadsAreMade }
    ensures same { ThreadsAreSame }
    ensures numbered { WakesAreNumbered }
    ensures wakes { WakesStay }
{}

/// The empty log is sound, and a sound log stays so by an event that fits and does not race.
pub fn fitting_events_stay_sound()
    ensures empty { EmptyLogIsSound }
    ensures fitting { FittingEventsStaySound }
{}

/// An event that is no access races with nothing.
pub fn others_do_not_race()
    ensures { OthersDoNotRace }
{}

/// A log that meets the axioms was built of logs that do: each write or update had the next position, and each read was an
/// option of its past.
pub fn logs_were_built()
    ensures pasts { PastsMeetAxioms }
    ensures writes { WritesWereNext }
    ensures reads { ReadsWereOptions }
{}

/// The value at a position is the initial scalar of the cell, or that of the write or update that made the position.
pub fn values_are_written()
    ensures { ValuesAreWritten }
{}

/// The cells of the log of a run are there. So more objects change nothing of it: its initial scalars, its options, what may
/// come next and that it is sound stay.
pub fn more_objects_change_nothing()
    ensures cells { CellsStayThere }
    ensures initials { InitialsStay }
    ensures options { OptionsStay }
    ensures fitting { EventsStillFit }
    ensures sound { LogsStaySound }
{}
