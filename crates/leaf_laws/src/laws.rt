// What holds of how many runs there are.
ghost use Rattle.leaf_laws.specs.Local.{LocalRunsAreAmong};

/// What the runs show in which local steps come first, one after the other, is among what the runs by schedules show, in the same order. So
/// there are no more of them than ways in which the picks may go.
pub fn local_runs_are_among()
    ensures { LocalRunsAreAmong }
{}
