// What holds of each run with a client that answers by a way that fits.
ghost use Rattle.way_laws.specs.Laws.{RunsByWaysAreNeverStuck, MomentsByWaysAreSound, RunsByWaysEnd, EntriesFit, EntryAnswersFit, RunsByEntriesAreSame};

/// At each moment of the run of a function that may be entered, in a setting that fits, the next step has a rule with the client's own
/// answer. So it is by each way by which a client that fits, where it is shown what fits, answers what fits and fits past it.
pub fn runs_by_ways_are_never_stuck()
    ensures { RunsByWaysAreNeverStuck }
{}

/// At each moment of such a run the log meets the axioms of memory, no two of its events race, each of its reads was an option of its past,
/// an access that comes next is offered exactly what the axioms and its comparison let it take, no two threads are on one stack and no
/// thread is on two, and the next step has a rule. Where that step gives the ending, it has logged nothing, or that a thread left the
/// stack on which it stood, and the log that is left is sound too.
pub fn moments_by_ways_are_sound()
    ensures { MomentsByWaysAreSound }
{}

/// Such a run begins and has an ending, within one step more than it may make.
pub fn runs_by_ways_end()
    ensures { RunsByWaysEnd }
{}

/// Answers by entries are a way that fits.
pub fn entries_fit()
    ensures { EntriesFit }
{}

/// The answer of an entry fits where what it tells fits, whatever is made. So a way that picks entries of its client fits.
pub fn entry_answers_fit()
    ensures { EntryAnswersFit }
{}

/// A run by entries is a run of the abstract machine. So it is of every program.
pub fn runs_by_entries_are_same()
    ensures { RunsByEntriesAreSame }
{}
