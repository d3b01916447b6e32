// The answers to conditions over the outcomes of a search.
ghost use Rattle.std.specs.Prelude.{◌≡◌, ◌++◌, map, IfOk, OnOk};
ghost use Rattle.conditions.specs.Answers.{status_of};
ghost use Rattle.condition_answers.specs.Outcomes.{outcome_in};
ghost use Rattle.condition_answers.specs.Lines.{answers_over, lines_over, answer_lines, answers_status};

use crate::outcomes::read_outcome;
use conditions::{Answer, Condition, Outcome, answer_of, append_answer, status};
use mu_base::Status;
use std::alloc::{AllocError, Global};
use std::collections::BTreeMap;

/// The lines of answers, and the status after them.
#[derive(Drop)]
pub struct Answered {
    pub lines: Vec<u8>,
    pub status: Status,
}

// What the outcomes say.
fn read_outcomes(
    alloc: Global,
    found: &BTreeMap<Vec<u8>, Vec<u32>>,
) -> Result<Vec<Outcome>, AllocError>
    ensures { IfOk result (λ outcomes. outcomes.items ≡ map (λ e. outcome_in e.0.items) found.now.entries) }
{
    let mut outcomes = Vec::new(alloc);
    for (text, _picks) in found.iter() {
        outcomes.push(read_outcome(alloc, text)?)?;
    }
    Ok(outcomes)
}

// The answers to conditions over these outcomes.
fn answers_over(
    alloc: Global,
    found: &[Outcome],
    complete: bool,
    conditions: &[Condition],
) -> Result<Vec<Answer>, AllocError>
    ensures { IfOk result (λ answers. answers.items ≡ answers_over found.now complete conditions.now) }
{
    let mut answers = Vec::new(alloc);
    for condition in conditions {
        answers.push(answer_of(condition, found, complete))?;
    }
    Ok(answers)
}

// Their lines.
fn lines_over(
    alloc: Global,
    found: &[Outcome],
    complete: bool,
    conditions: &[Condition],
) -> Result<Vec<u8>, AllocError>
    ensures { IfOk result (λ lines. lines.items ≡ lines_over found.now complete conditions.now) }
{
    let mut lines = Vec::new(alloc);
    for condition in conditions {
        let answer = answer_of(condition, found, complete);
        append_answer(condition.claim, answer, &mut lines)?;
    }
    Ok(lines)
}

/// The answers to conditions over the outcomes that a search found, as their texts say them; `complete` where there are no others. It
/// fails only out of memory.
pub fn answer_all(
    alloc: Global,
    found: &BTreeMap<Vec<u8>, Vec<u32>>,
    complete: bool,
    conditions: &[Condition],
) -> Result<Answered, AllocError>
    ensures lines { IfOk result (λ answered. answered.lines.items ≡ answer_lines (map (λ e. e.0.items) found.now.entries) complete conditions.now) }
    ensures status { IfOk result (λ answered. answered.status ≡ answers_status (map (λ e. e.0.items) found.now.entries) complete conditions.now) }
{
    let outcomes = read_outcomes(alloc, found)?;
    let answers = answers_over(alloc, &outcomes, complete, conditions)?;
    let lines = lines_over(alloc, &outcomes, complete, conditions)?;
    let status = status(&answers);
    Ok(Answered { lines, status })
}
