// The answers to conditions.
ghost use Rattle.std.specs.Prelude.{◌≡◌};
ghost use Rattle.std.specs.List.{list_any, position};
ghost use Rattle.conditions.specs.Answers.{decides, answer_by, answer_of, is_no, is_unknown, status_of};

use crate::holding::{Outcome, satisfies};
use crate::tree::{Claim, Condition};
use mu_base::Status;

/// The answer to a condition. Where one outcome gives it, that is the first such, by its place among those found, from 0.
#[derive(Clone, Copy, Debug, PartialEq, Eq)]
pub enum Answer {
    /// The condition is true of the search
    Yes(Option<usize>),
    /// It is false
    No(Option<usize>),
    /// No outcome that was found gives the answer, and there may be others
    Unknown,
}

// Whether the outcome alone gives the answer.
fn decides(condition: &Condition, outcome: &Outcome) -> bool
    ensures { result ≡ decides condition.now.claim condition.now.lists outcome.now }
{
    match condition.claim {
        Claim::Always => !satisfies(condition, outcome),
        _ => satisfies(condition, outcome),
    }
}

fn answer_by(claim: Claim, first: Option<usize>, complete: bool) -> Answer
    ensures { result ≡ answer_by claim first complete }
{
    match (claim, first) {
        (Claim::Exists, Some(n)) => Answer::Yes(Some(n)),
        (_, Some(n)) => Answer::No(Some(n)),
        (_, None) if !complete => Answer::Unknown,
        (Claim::Exists, None) => Answer::No(None),
        (_, None) => Answer::Yes(None),
    }
}

// Where the first outcome stands that gives the answer.
fn first_deciding(condition: &Condition, found: &[Outcome]) -> Option<usize>
    ensures { result ≡ position (decides condition.now.claim condition.now.lists) found.now }
{
    found.iter().position(|outcome| decides(condition, outcome))
}

/// The answer to the condition over the outcomes that a search found; `complete` where there are no others.
pub fn answer_of(condition: &Condition, found: &[Outcome], complete: bool) -> Answer
    ensures { result ≡ answer_of condition.now found.now complete }
{
    let first = first_deciding(condition, found);
    answer_by(condition.claim, first, complete)
}

fn is_no(answer: Answer) -> bool
    ensures { result ≡ is_no answer }
{
    matches!(answer, Answer::No(_))
}

// Whether one of these is no.
fn any_no(answers: &[Answer]) -> bool
    ensures { result ≡ list_any is_no answers.now }
{
    answers.iter().any(|answer| is_no(*answer))
}

fn is_unknown(answer: Answer) -> bool
    ensures { result ≡ is_unknown answer }
{
    matches!(answer, Answer::Unknown)
}

// Whether one of these is unknown.
fn any_unknown(answers: &[Answer]) -> bool
    ensures { result ≡ list_any is_unknown answers.now }
{
    answers.iter().any(|answer| is_unknown(*answer))
}

/// The status after these answers: `No` where one is no, else `Budget` where one is unknown, else `Done`.
pub fn status(answers: &[Answer]) -> Status
    ensures { result ≡ status_of answers.now }
{
    if any_no(answers) {
        Status::No
    } else if any_unknown(answers) {
        Status::Budget
    } else {
        Status::Done
    }
}
