// The status of what a search found.
ghost use Rattle.std.specs.Prelude.{◌≡◌};
ghost use Rattle.search_texts.specs.Texts as texts;
ghost use Rattle.explore.specs.Answers.{search_status};

use conditions::Condition;
use mu_base::Status;
use search_texts::is_complete;

/// The status that goes with a search: without conditions `Done` where nothing is left out, else `Budget`; with some that of the answers
/// to these.
pub fn search_status(left: bool, says: bool, conditions: &[Condition], answered: Status) -> Status
    ensures { result ≡ search_status (texts.is_complete left says) conditions.now answered }
{
    if !conditions.is_empty() {
        return answered;
    }
    if is_complete(left, says) {
        Status::Done
    } else {
        Status::Budget
    }
}
