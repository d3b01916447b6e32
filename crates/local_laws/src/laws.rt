// What holds of runs in which local steps come first.
ghost use Rattle.local_laws.specs.LocalSteps.{LocalStepsMeet, LocalStepsLeaveEndings, LocalRunsAreRuns};
ghost use Rattle.local_laws.specs.LocalLoop.{FirstStepsGoOn, FirstStepsDoNotEnd, AnyStepsGoOn, AnyStepsEnd, SchedulesGoOn, SchedulesEnd, StepsHaveRules, NoneBreaksLater};
ghost use Rattle.local_laws.specs.LocalSearch.{LocalStepsComeFirst, LocalRunsAreShown, LocalSearchIsComplete};

use search_laws::{local_steps_commute, picks_are_only_picked_from};

/// A local step of a thread and a step of another one, where both go on, may be exchanged. Both ways come to the same configuration, but for the numbers of
/// the schedule that are left and the lines of the last step.
pub fn local_steps_meet()
    ensures meet { LocalStepsMeet }
    ensures endings { LocalStepsLeaveEndings }
{
    local_steps_commute();
}

/// A search through the runs in which local steps come first, made by the least thread that has one and without a pick, finds what is
/// seen of the run of each schedule, unless one of its runs comes to its budget, or to a step without a rule, which no run of an accepted
/// bundle does. Each of its runs is that of a schedule.
pub fn local_searches_are_complete()
    ensures first { LocalStepsComeFirst }
    ensures runs { LocalRunsAreRuns }
    ensures shown { LocalRunsAreShown }
    ensures complete { LocalSearchIsComplete }
{
    local_steps_commute();
    picks_are_only_picked_from();
}

/// What a loop goes by that makes such a run step by step: which picks of the search each step makes, what it comes to, and which numbers
/// the schedule of the run has. Where no schedule's run comes to a step without a rule, each thread may be asked for its step.
pub fn local_runs_go_on()
    ensures first { FirstStepsGoOn }
    ensures first_ends { FirstStepsDoNotEnd }
    ensures any { AnyStepsGoOn }
    ensures any_ends { AnyStepsEnd }
    ensures schedules { SchedulesGoOn }
    ensures schedules_end { SchedulesEnd }
    ensures rules { StepsHaveRules }
    ensures later { NoneBreaksLater }
{
    picks_are_only_picked_from();
}
