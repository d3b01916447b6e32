// Counts the steps and the events of a run, and tells of it in one line.
ghost use Rattle.std.specs.Prelude.{◌≡◌, ◌≢◌, ◌≤◌, ◌++◌, Some, None, IfOk, IfSome, OnOk, codes, decimal, false};
ghost use Rattle.std.specs.List.{count_by};
ghost use Rattle.mu_base.specs.Faults.{Rose};
ghost use Rattle.mu_model.specs.Outcomes.{Stuck};
ghost use Rattle.mu_model.specs.Programs.{named};
ghost use Rattle.mu_model.specs.Run.{run};
ghost use Rattle.model_laws.specs.Bounds.{HasEnding};
ghost use Rattle.run_texts.specs.Texts.{ending_text, ending_status};
ghost use Rattle.mu_texts.specs.Answer.{line, is_event, trial_line, trial_answer};
ghost use Rattle.mu_command.specs.Written.{Writes};
ghost use Rattle.mu_command.specs.Steps.{answered_step, IsCounted, tally_behind};

use crate::writing::put_text;
use checked_code::Checked;
use client_script::RunClient;
use itoa::Buffer;
use mem_axioms::Memory;
use mu_base::{Sink, Status};
use mu_model::{Ending, Line, StepEnd};
use mu_step::Machine;
use run_print::{ending_status, ending_text};
use std::alloc::{AllocError, Global};

/// A step that was counted: how many events its lines tell of, and the ending where it gives one.
#[derive(Drop)]
pub struct Counted {
    pub events: usize,
    pub ending: Option<Ending>,
}

/// What a run came to: how many steps were made, how many events their lines tell of, and the ending. The step that gives the ending is not
/// counted among the steps; the events that its lines tell of are among the events.
#[derive(Drop)]
pub struct Tally {
    pub steps: u64,
    pub events: u128,
    pub ending: Ending,
}

// Whether a line tells of an event.
fn is_event(line: &Line) -> bool
    ensures { result ≡ is_event line.now }
{
    match line {
        Line::Event { .. } => true,
        Line::Note(_) => false,
    }
}

// How many events lines tell of.
fn events_in(lines: &[Line]) -> usize
    ensures { result ≡ count_by is_event lines.now }
{
    lines.iter().filter(|line| is_event(*line)).count()
}

// Makes a step of any kind and counts it. None where no memory is found.
fn count_any_step<M: Memory + Drop>(machine: &mut Machine<M, RunClient>) -> Option<Counted>
    requires fresh { machine.old.ended ≡ false }
    requires there { answered_step (named machine.old.bundle) machine.old.configuration ≢ Stuck }
    ensures same { machine.new.bundle ≡ machine.old.bundle }
    ensures fresh { IfSome result (λ step. step.ending ≡ None → machine.new.ended ≡ false) }
    ensures counted { IfSome result (IsCounted machine.old.bundle machine.old.configuration machine.new.configuration) }
{
    match machine.step() {
        Ok(StepEnd::Went(lines)) => Some(Counted {
            events: events_in(lines.as_slice()),
            ending: None,
        }),
        Ok(StepEnd::Ended(lines, ending)) => Some(Counted {
            events: events_in(lines.as_slice()),
            ending: Some(ending),
        }),
        Err(_) => None,
    }
}

// Makes a step and counts it, as `count_any_step` does. Most steps are frequent ones, which have no lines.
#[tactic(auto, using(crate::proofs::Tallies::at_once))]
fn count_step<M: Memory + Drop>(machine: &mut Machine<M, RunClient>) -> Option<Counted>
    requires fresh { machine.old.ended ≡ false }
    requires there { answered_step (named machine.old.bundle) machine.old.configuration ≢ Stuck }
    ensures same { machine.new.bundle ≡ machine.old.bundle }
    ensures fresh { IfSome result (λ step. step.ending ≡ None → machine.new.ended ≡ false) }
    ensures counted { IfSome result (IsCounted machine.old.bundle machine.old.configuration machine.new.configuration) }
{
    if machine.advance() {
        return Some(Counted {
            events: 0,
            ending: None,
        });
    }
    count_any_step(machine)
}

// Makes the steps of a run up to its ending, which comes within so many, and counts them. None where no memory is found.
fn count_run<M: Memory + Drop>(machine: &mut Machine<M, RunClient>, limit: u64) -> Option<Tally>
    requires fresh { machine.old.ended ≡ false }
    requires ends { HasEnding (run (named machine.old.bundle) limit machine.old.configuration) }
    ensures { IfSome result (λ tally. tally_behind 0 0 (run (named machine.old.bundle) limit machine.old.configuration) ≡ Some tally) }
{
    let mut steps = 0u64;
    let mut events = 0u128;
    let mut left = limit;
    'steps: while left > 0 {
        left -= 1;
        let step = count_step(machine)?;
        events += step.events as u128;
        match step.ending {
            None => steps += 1,
            Some(ending) => {
                return Some(Tally {
                    steps,
                    events,
                    ending,
                });
            }
        }
    }
    unreachable!()
}

// Appends words and a number behind them.
fn numbered(words: &[u8], n: u128, out: &mut Vec<u8>) -> Result<(), AllocError>
    ensures { OnOk result (out.new.items ≡ out.old.items ++ (words.now ++ decimal n)) }
{
    let mut buffer = Buffer::new();
    out.extend_from_slice(words)?;
    out.extend_from_slice(buffer.format(n).as_bytes())
}

// The line that tells of a run, its line feed included.
fn trial_line(alloc: Global, n: u32, code: &Checked, tally: &Tally) -> Result<Vec<u8>, AllocError>
    ensures { IfOk result (λ text. text.items ≡ trial_line n tally.now.steps tally.now.events (ending_text code.now tally.now.ending) ++ codes "\n") }
{
    let mut text = Vec::new(alloc);
    numbered(b"trial ", n as u128, &mut text)?;
    numbered(b" steps ", tally.steps as u128, &mut text)?;
    numbered(b" events ", tally.events, &mut text)?;
    text.extend_from_slice(b" ")?;
    ending_text(code, &tally.ending, &mut text)?;
    Ok(text)
}

// Writes the line that tells of a run.
fn write_tally<S: Sink>(alloc: Global, out: &mut S, n: u32, code: &Checked, tally: &Tally) -> Status
    ensures writes { Writes (line (trial_line n tally.now.steps tally.now.events (ending_text code.now tally.now.ending)) (ending_status tally.now.ending))
        (S.written out.old) (S.written out.new) (S.ends out.old) (S.ends out.new) result }
    ensures never_falls { S.faults out.old ≤ S.faults out.new }
    ensures fault { result ≡ Status.SinkFault → Rose (S.faults out.old) (S.faults out.new) }
{
    match trial_line(alloc, n, code, tally) {
        Ok(text) => put_text(out, text, ending_status(&tally.ending)),
        Err(_) => Status::Memory,
    }
}

/// Makes the steps of the run of the made bundle with `n` pairs up to its ending, which comes within so many, and writes the line that
/// tells of it.
#[tactic(auto, using(crate::proofs::Puts::no_memory))]
pub fn write_counts<S: Sink, M: Memory + Drop>(
    alloc: Global,
    out: &mut S,
    n: u32,
    code: &Checked,
    machine: &mut Machine<M, RunClient>,
    steps: u64,
) -> Status
    requires same { machine.old.bundle ≡ code.now }
    requires fresh { machine.old.ended ≡ false }
    requires ends { HasEnding (run (named code.now) steps machine.old.configuration) }
    ensures writes { Writes (trial_answer n code.now (run (named code.now) steps machine.old.configuration))
        (S.written out.old) (S.written out.new) (S.ends out.old) (S.ends out.new) result }
    ensures never_falls { S.faults out.old ≤ S.faults out.new }
    ensures fault { result ≡ Status.SinkFault → Rose (S.faults out.old) (S.faults out.new) }
{
    match count_run(machine, steps) {
        Some(tally) => write_tally(alloc, out, n, code, &tally),
        None => Status::Memory,
    }
}
