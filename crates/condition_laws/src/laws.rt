// What the answers to conditions say of runs.
ghost use Rattle.condition_laws.specs.Laws.{AnswersSpeakOfRuns};

/// Of a search each outcome of which is that of its schedule's run, and which has all of them where it is complete: yes is said only of a
/// condition that is true of the runs of all schedules, and no only of one that is false.
pub fn answers_speak_of_runs()
    ensures { AnswersSpeakOfRuns }
{}
