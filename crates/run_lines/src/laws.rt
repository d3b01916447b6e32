// What holds of the text of a run, read as the text of a log.
ghost use Rattle.run_lines.specs.Laws.{RunLineIsRead, RunTextIsRead};
ghost use Rattle.run_lines.specs.RunsRead.{LogsOfTextsAreReadable, RunsOfTextsAreReadable, RunsOfTextsAreJudged, GivenRunsOfTextsAreJudged};
ghost use Rattle.run_lines.specs.PlainLines.{TextsArePlain};
ghost use Rattle.run_lines.specs.Verdicts.{RunIsYes, RunTextIsYes};

use loaded_programs::{loaded_settings_are_modest, loaded_settings_fit};
use log_lines::{event_lines_are_read, texts_are_read, values_are_replaced};
use mem_axioms::{accessed_initials_matter, least_race_is_named};
use text_programs::runs_leave_sound_logs;
use verdicts::{values_do_not_matter, yes_is_exact};

/// The line that a run prints for an event that can be read back is read as that event, with its value replaced; and the text of a run, in
/// its pieces, is read as the events of its lines.
pub fn run_texts_are_read()
    ensures line { RunLineIsRead }
    ensures text { RunTextIsRead }
{
    event_lines_are_read();
    texts_are_read();
}

/// The verdict on the log of a run is Yes, and so is the verdict on what its text is read as, where its lines can be read.
pub fn logs_get_yes()
    ensures log { RunIsYes }
    ensures text { RunTextIsYes }
{
    run_texts_are_read();
    values_are_replaced();
    accessed_initials_matter();
    least_race_is_named();
    yes_is_exact();
    values_do_not_matter();
}

/// Each event that a run of an accepted text leaves in its log can be read, in a modest setting.
pub fn logs_are_readable()
    ensures { LogsOfTextsAreReadable }
{}

/// A record or an ending of a run of a text has no line feed in it and does not begin with a digit, and each function has a name.
pub fn texts_are_plain()
    ensures { TextsArePlain }
{}

/// All lines of such a run can be read, its event lines are numbered, and its events are fewer than 2^32.
pub fn runs_are_readable()
    ensures { RunsOfTextsAreReadable }
{}

/// So the text of such a run is read as its log, with its values replaced, and the verdict on that log is Yes.
pub fn runs_are_judged()
    ensures { RunsOfTextsAreJudged }
{
    logs_get_yes();
    runs_are_readable();
    runs_leave_sound_logs();
}

/// So it is with each run that the program makes of an accepted text, whatever its scripts, its schedule and its limits.
pub fn given_runs_are_judged()
    ensures { GivenRunsOfTextsAreJudged }
{
    runs_are_judged();
    loaded_settings_fit();
    loaded_settings_are_modest();
}
