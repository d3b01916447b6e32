// Runs and what is seen of them, at greater budgets.
ghost use Rattle.budget_laws.specs.Budgets.{EndedRunsStay, SeenStays, ShownStay, CompleteStays};

/// A run that ends otherwise than by its budget is the same run at each greater budget.
pub fn ended_runs_stay()
    ensures { EndedRunsStay }
{}

/// What is seen of a run by a schedule is what is seen of it at each greater budget. So each outcome of a search stays that of its schedule,
/// and a search that is complete stays complete.
pub fn outcomes_stay()
    ensures seen { SeenStays }
    ensures shown { ShownStay }
    ensures complete { CompleteStays }
{}
