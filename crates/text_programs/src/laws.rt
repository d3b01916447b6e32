// What holds of every text that is read and accepted.
ghost use Rattle.text_programs.specs.Laws.{BundlesThatAreReadHaveBlocks, TextsAreTyped, RunsOfTextsHaveAnEnding, RunsOfTextsNeverBreak, PlainSettingsFit, EnteredRunsHaveAnEnding};
ghost use Rattle.text_programs.specs.Lines.{LinesDoNotMix};
ghost use Rattle.text_programs.specs.Moments.{MomentsOfTextsAreSound, EndingsOfTextsAreSound, MomentsOfTextsAreSmall};
ghost use Rattle.text_programs.specs.Printable.{MomentsOfTextsArePrintable};
ghost use Rattle.text_programs.specs.Numbers.{RunsAreNumbered};
ghost use Rattle.text_programs.specs.RunLogs.{LinesTellTheLog, RunsOfTextsLeaveSoundLogs, RuleStays};

/// Each function that is defined in a bundle that is read has a block.
pub fn bundles_that_are_read_have_blocks()
    ensures { BundlesThatAreReadHaveBlocks }
{}

/// A bundle that is read, and that meets its demands, is a well-typed program. Its plain runs have an ending, in each function that takes
/// nothing and has a body: no step of them is without a rule.
pub fn texts_never_break()
    ensures typed { TextsAreTyped }
    ensures endings { RunsOfTextsHaveAnEnding }
    ensures breaks { RunsOfTextsNeverBreak }
{}

/// A setting that is given the objects of the globals and a client without entries fits.
pub fn plain_settings_fit()
    ensures { PlainSettingsFit }
{}

/// A run of a function that may be entered, in a setting that fits, begins and has an ending.
pub fn entered_runs_have_an_ending()
    ensures { EnteredRunsHaveAnEnding }
{}

/// At each moment of the run of a function that may be entered, in a setting that fits, the log meets the axioms of memory, no two of its
/// events race, each of its reads was an option of its past, an access that comes next is offered exactly what the axioms and its
/// comparison let it take, no two threads are on one stack and no thread is on two, the next step has a rule, and where that step gives
/// the ending the log that is left is sound too.
pub fn moments_are_sound()
    ensures { MomentsOfTextsAreSound }
{}

/// Where such a run ends, its last step has logged nothing, or that a thread left the stack on which it stood, as it does at a trap; and
/// the log that is left meets the axioms of memory, no two of its events race, and each of its reads was an option of its past.
pub fn endings_are_sound()
    ensures { EndingsOfTextsAreSound }
{}

/// At each such moment the numbers of events, objects, stacks, threads and frames fit 32 bits, where the run may make a million steps at
/// most and the objects that it is given leave room for a million more.
pub fn moments_are_small()
    ensures { MomentsOfTextsAreSmall }
{}

/// What a step does, and which lines it writes, is the same whatever lines an earlier step wrote.
pub fn lines_do_not_mix()
    ensures { LinesDoNotMix }
{}

/// The lines of a step that goes on tell, in order, exactly the events that it logs. So it is of every program.
pub fn lines_tell_the_log()
    ensures { LinesTellTheLog }
{}

/// The run of a function that may be entered, in a setting that fits, leaves behind its last moment the log that all its lines tell. That
/// log meets the axioms of memory, no two of its events race, and each of its reads was an option of its past.
pub fn runs_leave_sound_logs()
    ensures { RunsOfTextsLeaveSoundLogs }
{}

/// Each moment of a run goes by the rule of release sequences that the run is given. So it is of every program.
pub fn rule_stays()
    ensures { RuleStays }
{}

/// At each such moment each event of the log can be printed, and no object has more cells than the setting allows.
pub fn moments_are_printable()
    ensures { MomentsOfTextsArePrintable }
{}

/// The event lines of a run that ends are numbered from 0 on. This holds of every program.
pub fn runs_are_numbered()
    ensures { RunsAreNumbered }
{}
