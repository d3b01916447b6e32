// Laws of steps whose events may be exchanged.
ghost use Rattle.exchange_steps.specs.Laws.{TurnsAreAlike, IndependentStepsCommute, StepsAreTurns};

/// A turn comes to the same over two logs that differ by the exchange of two neighbouring independent events.
pub fn turns_are_alike()
    ensures { TurnsAreAlike }
{}

/// Two accesses or fences of two threads, whose events are independent, commute.
pub fn independent_steps_commute()
    ensures commute { IndependentStepsCommute }
    ensures turns { StepsAreTurns }
{}
