// The second half of the program: writes what was found.
ghost use Rattle.std.specs.Prelude.{◌≡◌, ◌≢◌, ◌≤◌, ◌∷◌, [], Some, IfNone, IfSome, IfOk, OnOk, OnErr, IfErr, false};
ghost use Rattle.mu_base.specs.Faults.{Rose};
ghost use Rattle.mu_base.specs.Sink.{PutsWhole, PutsPart};
ghost use Rattle.mu_model.specs.Outcomes.{Stuck};
ghost use Rattle.mu_model.specs.Programs.{named};
ghost use Rattle.mu_model.specs.Run.{first_configuration, run};
ghost use Rattle.run_texts.specs.Texts.{ending_status};
ghost use Rattle.mu_texts.specs.Answer.{Answer, run_of, run_answer, told_answer, verdict_answer, ready_answer};
ghost use Rattle.model_laws.specs.Bounds.{HasEnding};
ghost use Rattle.mu_texts.specs.Comes.{IsRunnable, CanRun};
ghost use Rattle.mu_texts.specs.declared.ready.Ready.TheVariants as ready;
ghost use Rattle.mu_command.specs.Written.{Wrote, Writes, IsWhole};
ghost use Rattle.mu_command.specs.Steps.{step_pieces, last_piece, behind_pieces, answered_step, Goes, IsOver};

use crate::counting::write_counts;
use crate::writing::{put_line, put_whole_text};
use checked_code::Checked;
use client_script::RunClient;
use ir_print::print_bundle;
use ir_tree::Bundle;
use mem_axioms::Memory;
use mem_views::ViewMemory;
use mu_base::{PutFault, Sink, Status};
use mu_model::{Ending, Line, StepEnd};
use mu_step::Machine;
use mu_texts::{Ready, Start, Telling, verdict_status, verdict_text};
use run_print::{ending_status, ending_text, lines_text};
use run_start::RunInputs;
use std::alloc::{AllocError, Global};
use std::mem;
use verdicts::Verdict;

// Puts a text in one piece; a put that fails gives the status that goes with it.
fn put<S: Sink>(out: &mut S, text: &[u8]) -> Result<(), Status>
    ensures whole { OnOk result (PutsWhole text.now (S.written out.old) (S.written out.new) (S.ends out.old) (S.ends out.new)) }
    ensures part { OnErr result (PutsPart text.now (S.written out.old) (S.written out.new) (S.ends out.old) (S.ends out.new)) }
    ensures never_falls { S.faults out.old ≤ S.faults out.new }
    ensures status { IfErr result (λ status. IsWhole status → ⊥) }
    ensures fault { IfErr result (λ status. status ≡ Status.SinkFault → Rose (S.faults out.old) (S.faults out.new)) }
{
    match out.put(text) {
        Ok(()) => Ok(()),
        Err(PutFault::Fault) => Err(Status::SinkFault),
        Err(PutFault::Memory) => Err(Status::Memory),
    }
}

// Puts the lines of a step in one piece; where there are none nothing is put. None where all was put, else the status of the program.
// `text` is room that is used again.
#[tactic(auto, using(crate::proofs::InSteps::running))]
fn put_lines<S: Sink>(
    out: &mut S,
    code: &Checked,
    lines: &[Line],
    text: &mut Vec<u8>,
) -> Option<Status>
    ensures goes { IfNone result (Wrote (step_pieces code.now lines.now) (S.written out.old) (S.written out.new) (S.ends out.old) (S.ends out.new)) }
    ensures over { IfSome result (λ status. (answer : Answer) → Writes (behind_pieces (step_pieces code.now lines.now) answer)
        (S.written out.old) (S.written out.new) (S.ends out.old) (S.ends out.new) status) }
    ensures never_falls { S.faults out.old ≤ S.faults out.new }
    ensures fault { IfSome result (λ status. status ≡ Status.SinkFault → Rose (S.faults out.old) (S.faults out.new)) }
{
    if lines.is_empty() {
        return None;
    }
    text.clear();
    match lines_text(code, lines, text) {
        Ok(()) => match put(out, text) {
            Ok(()) => None,
            Err(status) => Some(status),
        },
        Err(_) => Some(Status::Memory),
    }
}

// The last piece: the lines of the step that gives the ending, and the line of the ending.
fn last_text(
    code: &Checked,
    lines: &[Line],
    ending: &Ending,
    text: &mut Vec<u8>,
) -> Result<(), AllocError>
    ensures { OnOk result (text.new.items ≡ last_piece code.now lines.now ending.now) }
{
    text.clear();
    lines_text(code, lines, text)?;
    ending_text(code, ending, text)
}

// Puts the last piece.
#[tactic(auto, using(crate::proofs::InSteps::running))]
fn put_last<S: Sink>(
    out: &mut S,
    code: &Checked,
    lines: &[Line],
    ending: &Ending,
    text: &mut Vec<u8>,
) -> Status
    ensures writes { Writes (record { pieces = last_piece code.now lines.now ending.now ∷ []; status = ending_status ending.now })
        (S.written out.old) (S.written out.new) (S.ends out.old) (S.ends out.new) result }
    ensures never_falls { S.faults out.old ≤ S.faults out.new }
    ensures fault { result ≡ Status.SinkFault → Rose (S.faults out.old) (S.faults out.new) }
{
    match last_text(code, lines, ending, text) {
        Ok(()) => match put(out, text) {
            Ok(()) => ending_status(ending),
            Err(status) => status,
        },
        Err(_) => Status::Memory,
    }
}

// Makes a step of any kind and puts its lines. None where the run goes on, else the status of the program.
#[tactic(auto, using(crate::proofs::InSteps::running))]
fn make_any_step<S: Sink, M: Memory + Drop>(
    out: &mut S,
    code: &Checked,
    machine: &mut Machine<M, RunClient>,
    text: &mut Vec<u8>,
) -> Option<Status>
    requires same { machine.old.bundle ≡ code.now }
    requires fresh { machine.old.ended ≡ false }
    requires there { answered_step (named code.now) machine.old.configuration ≢ Stuck }
    ensures same { machine.new.bundle ≡ code.now }
    ensures fresh { IfNone result (machine.new.ended ≡ false) }
    ensures goes { IfNone result (Goes code.now machine.old.configuration machine.new.configuration (S.written out.old) (S.written out.new) (S.ends out.old) (S.ends out.new)) }
    ensures over { IfSome result (λ status. IsOver code.now machine.old.configuration (S.written out.old) (S.written out.new) (S.ends out.old) (S.ends out.new) status) }
    ensures never_falls { S.faults out.old ≤ S.faults out.new }
    ensures fault { IfSome result (λ status. status ≡ Status.SinkFault → Rose (S.faults out.old) (S.faults out.new)) }
{
    match machine.step() {
        Ok(StepEnd::Went(lines)) => put_lines(out, code, lines.as_slice(), text),
        Ok(StepEnd::Ended(lines, ending)) => Some(put_last(
            out,
            code,
            lines.as_slice(),
            &ending,
            text,
        )),
        Err(_) => Some(Status::Memory),
    }
}

// Makes a step as `make_any_step` does. Most steps are frequent ones, which have no lines.
#[tactic(auto, using(crate::proofs::InSteps::at_once))]
fn make_step<S: Sink, M: Memory + Drop>(
    out: &mut S,
    code: &Checked,
    machine: &mut Machine<M, RunClient>,
    text: &mut Vec<u8>,
) -> Option<Status>
    requires same { machine.old.bundle ≡ code.now }
    requires fresh { machine.old.ended ≡ false }
    requires there { answered_step (named code.now) machine.old.configuration ≢ Stuck }
    ensures same { machine.new.bundle ≡ code.now }
    ensures fresh { IfNone result (machine.new.ended ≡ false) }
    ensures goes { IfNone result (Goes code.now machine.old.configuration machine.new.configuration (S.written out.old) (S.written out.new) (S.ends out.old) (S.ends out.new)) }
    ensures over { IfSome result (λ status. IsOver code.now machine.old.configuration (S.written out.old) (S.written out.new) (S.ends out.old) (S.ends out.new) status) }
    ensures never_falls { S.faults out.old ≤ S.faults out.new }
    ensures fault { IfSome result (λ status. status ≡ Status.SinkFault → Rose (S.faults out.old) (S.faults out.new)) }
{
    if machine.advance() {
        return None;
    }
    make_any_step(out, code, machine, text)
}

// Makes the steps of a run up to its ending, which comes within so many, and puts the lines of each.
fn write_steps<S: Sink, M: Memory + Drop>(
    alloc: Global,
    out: &mut S,
    code: &Checked,
    machine: &mut Machine<M, RunClient>,
    steps: u64,
) -> Status
    requires same { machine.old.bundle ≡ code.now }
    requires fresh { machine.old.ended ≡ false }
    requires ends { HasEnding (run (named code.now) steps machine.old.configuration) }
    ensures writes { Writes (run_answer code.now (run (named code.now) steps machine.old.configuration))
        (S.written out.old) (S.written out.new) (S.ends out.old) (S.ends out.new) result }
    ensures never_falls { S.faults out.old ≤ S.faults out.new }
    ensures fault { result ≡ Status.SinkFault → Rose (S.faults out.old) (S.faults out.new) }
{
    let mut text = Vec::new(alloc);
    let mut left = steps;
    'steps: while left > 0 {
        left -= 1;
        match make_step(out, code, machine, &mut text) {
            None => {}
            Some(status) => return status,
        }
    }
    unreachable!()
}

// A machine at the beginning of a run, over the memory of clocks, with the run's client.
fn begin(
    alloc: Global,
    code: &Checked,
    start: Start,
) -> Result<Machine<ViewMemory, RunClient>, AllocError>
    requires { IsRunnable code.now start }
    ensures bundle { IfOk result (λ m. m.bundle ≡ code.now) }
    ensures fresh { IfOk result (λ m. m.ended ≡ false) }
    ensures first { IfOk result (λ m. first_configuration (named code.now) start.setting start.entry ≡ Some m.configuration) }
{
    let memory = ViewMemory::new(alloc, start.rule);
    let inputs = RunInputs {
        heap: start.heap,
        memory,
        client: start.client,
        picks: start.picks,
        budget: start.budget,
    };
    Machine::new(alloc, code, start.entry, inputs)
}

// Makes the steps of a run up to its ending, which comes within so many, and writes what is to be told of it.
fn write_told<S: Sink, M: Memory + Drop>(
    alloc: Global,
    out: &mut S,
    code: &Checked,
    machine: &mut Machine<M, RunClient>,
    steps: u64,
    telling: Telling,
) -> Status
    requires same { machine.old.bundle ≡ code.now }
    requires fresh { machine.old.ended ≡ false }
    requires ends { HasEnding (run (named code.now) steps machine.old.configuration) }
    ensures writes { Writes (told_answer telling code.now (run (named code.now) steps machine.old.configuration))
        (S.written out.old) (S.written out.new) (S.ends out.old) (S.ends out.new) result }
    ensures never_falls { S.faults out.old ≤ S.faults out.new }
    ensures fault { result ≡ Status.SinkFault → Rose (S.faults out.old) (S.faults out.new) }
{
    match telling {
        Telling::Lines => write_steps(alloc, out, code, machine, steps),
        Telling::Counts { n } => write_counts(alloc, out, n, code, machine, steps),
    }
}

// Makes a run, and writes what is to be told of it. The process ends behind it, so the machine is left to the system, which takes all
// memory back at once; to give it back part by part takes a tenth of a short run. The same goes for what `write` is given.
#[tactic(auto, using(crate::proofs::InSteps::running))]
fn write_run<S: Sink>(
    alloc: Global,
    out: &mut S,
    code: &Checked,
    start: Start,
    telling: Telling,
) -> Status
    requires { IsRunnable code.now start }
    ensures writes { Writes (told_answer telling code.now (run_of code.now start.entry start.setting)) (S.written out.old) (S.written out.new) (S.ends out.old) (S.ends out.new) result }
    ensures never_falls { S.faults out.old ≤ S.faults out.new }
    ensures fault { result ≡ Status.SinkFault → Rose (S.faults out.old) (S.faults out.new) }
{
    let steps = start.budget as u64 + 1;
    match begin(alloc, code, start) {
        Ok(mut machine) => {
            let status = write_told(alloc, out, code, &mut machine, steps, telling);
            mem::forget(machine);
            status
        }
        Err(_) => Status::Memory,
    }
}

// Writes a bundle's canonical text, in one piece; the text of an empty bundle is empty and is not put.
fn write_canonical<S: Sink>(alloc: Global, bundle: &Bundle, out: &mut S) -> Status
    ensures writes { Writes (ready_answer (ready.Canonical bundle.now)) (S.written out.old) (S.written out.new) (S.ends out.old) (S.ends out.new) result }
    ensures never_falls { S.faults out.old ≤ S.faults out.new }
    ensures fault { result ≡ Status.SinkFault → Rose (S.faults out.old) (S.faults out.new) }
{
    let mut text = Vec::new(alloc);
    match print_bundle(bundle, &mut text) {
        Ok(()) => put_whole_text(out, text, Status::Done),
        Err(_) => Status::Memory,
    }
}

// Writes the line of a verdict.
#[tactic(auto, using(crate::proofs::Puts::no_memory, crate::proofs::Puts::whole_verdict))]
fn write_verdict<S: Sink>(alloc: Global, verdict: Verdict, out: &mut S) -> Status
    ensures writes { Writes (verdict_answer verdict) (S.written out.old) (S.written out.new) (S.ends out.old) (S.ends out.new) result }
    ensures never_falls { S.faults out.old ≤ S.faults out.new }
    ensures fault { result ≡ Status.SinkFault → Rose (S.faults out.old) (S.faults out.new) }
{
    match verdict_text(alloc, verdict) {
        Ok(text) => put_line(out, text, verdict_status(verdict)),
        Err(_) => Status::Memory,
    }
}

/// Writes what was found.
pub fn write<S: Sink>(alloc: Global, ready: Ready, out: &mut S) -> Status
    requires { CanRun ready }
    ensures writes { Writes (ready_answer ready) (S.written out.old) (S.written out.new) (S.ends out.old) (S.ends out.new) result }
    ensures never_falls { S.faults out.old ≤ S.faults out.new }
    ensures fault { result ≡ Status.SinkFault → Rose (S.faults out.old) (S.faults out.new) }
{
    match ready {
        Ready::Accepted => match Vec::from_slice(alloc, b"ok") {
            Ok(text) => put_line(out, text, Status::Done),
            Err(_) => Status::Memory,
        },
        Ready::Canonical(bundle) => {
            let status = write_canonical(alloc, &bundle, out);
            mem::forget(bundle);
            status
        }
        Ready::Judged(verdict) => write_verdict(alloc, verdict, out),
        Ready::Entered {
            code,
            start,
            telling,
        } => {
            let status = write_run(alloc, out, &code, start, telling);
            mem::forget(code);
            status
        }
    }
}
