// What holds of a search by sleep sets.
ghost use Rattle.sleep_laws.specs.SleepLaws.{SleepingRunsAreRuns, SleepSetsLoseNothing, SleepSearchIsComplete};
ghost use Rattle.sleep_laws.specs.SleepCounts.{SleepingRunsAreAmong, SleepingRunsAreFewer};
ghost use Rattle.sleep_laws.specs.SleepLoop.{FirstMovesGoOn, MovesGoOn, MovesEnd, RunsEnd, MovesSleep};

use local_laws::local_searches_are_complete;
use model_laws::{logs_meet_the_axioms, runs_stay_in_bounds, steps_are_never_stuck};
use search_laws::picks_are_only_picked_from;

/// A search that makes no move that sleeps makes some of the runs in which local steps come first, by the same numbers. What any of these
/// runs shows, one shows that the search makes. So where each of its runs shows a text that is found, the outcome of each schedule is found.
pub fn sleep_searches_are_complete()
    ensures runs { SleepingRunsAreRuns }
    ensures lose { SleepSetsLoseNothing }
    ensures complete { SleepSearchIsComplete }
{
    steps_are_never_stuck();
    logs_meet_the_axioms();
    runs_stay_in_bounds();
    local_searches_are_complete();
}

/// What a loop goes by that makes such a run step by step: which picks of the search each step makes, what sleeps behind it, and what it
/// comes to. A move that sleeps ends the run, which is left out.
pub fn sleeping_runs_go_on()
    ensures first { FirstMovesGoOn }
    ensures moves { MovesGoOn }
    ensures moves_end { MovesEnd }
    ensures runs_end { RunsEnd }
    ensures sleep { MovesSleep }
{
    picks_are_only_picked_from();
}

/// What the runs show that the search makes is among what the runs show in which local steps come first, in the same order. Together
/// with those that are left out they are at most as many.
pub fn sleeping_runs_are_among()
    ensures among { SleepingRunsAreAmong }
    ensures fewer { SleepingRunsAreFewer }
{}
