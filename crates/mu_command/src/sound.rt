// Laws of the run that words ask for.
ghost use Rattle.std.specs.Prelude.{List, ℕ};
ghost use Rattle.text_programs.specs.Moments.{IsSoundMoment};
ghost use Rattle.mu_command.specs.Central.{EachMoment, EachRunEnds};
ghost use Rattle.mu_command.specs.Judged.{PrintedRunsAreJudged, PrintedRunsAreAnsweredYes};

use ir_text::answer_is_one;
use loaded_programs::loaded_settings_fit;
use run_lines::given_runs_are_judged;
use text_programs::{entered_runs_have_an_ending, moments_are_sound};

/// Each moment of the run that words ask for is sound.
pub fn runs_are_sound()
    ensures { (words : List (List ℕ)) → EachMoment IsSoundMoment words }
{
    answer_is_one();
    loaded_settings_fit();
    moments_are_sound();
}

/// Each run that words ask for begins, and comes to its ending.
pub fn runs_have_their_endings()
    ensures { (words : List (List ℕ)) → EachRunEnds words }
{
    answer_is_one();
    loaded_settings_fit();
    entered_runs_have_an_ending();
}

/// The text that is printed of a run is read as the log of the run with its values replaced, and the verdict on that log is Yes.
pub fn printed_runs_are_judged()
    ensures { PrintedRunsAreJudged }
{
    answer_is_one();
    given_runs_are_judged();
}

/// The text that is printed of a run, given to `mu judge` with the run's rule of release sequences, is answered by `yes` and the number of the
/// run's events.
pub fn printed_runs_are_answered_yes()
    ensures { PrintedRunsAreAnsweredYes }
{
    printed_runs_are_judged();
}
