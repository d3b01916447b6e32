// Reads the texts of files, and judges them.
ghost use Rattle.std.specs.Prelude.{◌≡◌, ◌≤◌, None, Ok, IfOk, OnOk};
ghost use Rattle.demands.specs.Demands.{first_unmet};
ghost use Rattle.mu_texts.specs.Answer.{written_in, as_written, named, checked, accepted, entered, for_check, for_print, hail_part, client_part, scheduled};
ghost use Rattle.loaded_programs.specs.Laws.{IsScripted};
ghost use Rattle.mu_texts.specs.Comes.{Comes, met_alone, IsRefusal, LoadedRunsEnd, CanBegin, CanRun};

use crate::ready::Ready;
use crate::refusals::{
    check_fault_name, entry_fault_name, hail_fault_name, name_fault_name, refusal,
    schedule_fault_name, script_fault_name, text_fault_name,
};
use crate::stop::Stop;
use crate::what::What;
use bundle_check::{check, judge};
use bundle_names::{Resolved, resolve};
use checked_code::Checked;
use client_script::{RunClient, read_script};
use demands::Fault;
use hail_load::{Hail, read_hail};
use ir_text::{TextFault, answer_is_one, read_bundle};
use ir_tree::Bundle;
use loaded_programs::loaded_settings_fit;
use mu_base::Status;
use mu_threads::{Schedule, read_schedule};
use std::alloc::{AllocError, Global};
use text_programs::entered_runs_have_an_ending;

/// The line of a refusal of a file.
pub fn refused(alloc: Global, what: What, place: usize, fault: &str) -> Result<Stop, AllocError>
    ensures { IfOk result (λ stop. IsRefusal stop what place fault.now) }
{
    let text = refusal(alloc, what, place, fault)?;
    Ok(Stop::Line(text, Status::Refused))
}

/// The bundle that the text of a file spells.
pub fn read_written(alloc: Global, what: What, bytes: &[u8]) -> Result<Bundle, Stop>
    ensures { Comes (written_in what bytes.now) result }
{
    match read_bundle(alloc, bytes) {
        Ok(bundle) => Ok(bundle),
        Err(TextFault::Memory) => Err(Stop::Memory),
        Err(TextFault::At { kind, place }) => {
            Err(refused(alloc, what, place, text_fault_name(kind))?)
        }
    }
}

// Reads the one bundle of a job.
fn read(alloc: Global, bytes: &[u8]) -> Result<Bundle, Stop>
    ensures { Comes (as_written bytes.now) result }
{
    read_written(alloc, What::Bundle, bytes)
}

// Judges the names of a bundle.
fn name(alloc: Global, bundle: Bundle) -> Result<Resolved, Stop>
    ensures { Comes (named bundle) result }
{
    match resolve(alloc, bundle) {
        Ok(names) => Ok(names),
        Err(Fault::Memory) => Err(Stop::Memory),
        Err(Fault::At { kind, place }) => Err(refused(
            alloc,
            What::Bundle,
            place,
            name_fault_name(kind),
        )?),
    }
}

// Judges all else of a bundle.
fn judge_named(alloc: Global, names: Resolved) -> Result<Checked, Stop>
    ensures { Comes (checked names) result }
{
    match check(alloc, names) {
        Ok(code) => Ok(code),
        Err(Fault::Memory) => Err(Stop::Memory),
        Err(Fault::At { kind, place }) => Err(refused(
            alloc,
            What::Bundle,
            place,
            check_fault_name(kind),
        )?),
    }
}

// Judges all else of a bundle of which nothing is kept.
fn judge_alone(alloc: Global, names: Resolved) -> Result<Ready, Stop>
    ensures { Comes (met_alone names) result }
{
    match judge(alloc, names) {
        Ok(()) => Ok(Ready::Accepted),
        Err(Fault::Memory) => Err(Stop::Memory),
        Err(Fault::At { kind, place }) => Err(refused(
            alloc,
            What::Bundle,
            place,
            check_fault_name(kind),
        )?),
    }
}

// Reads a bundle and judges it.
fn accept(alloc: Global, bytes: &[u8]) -> Result<Checked, Stop>
    ensures { Comes (accepted bytes.now) result }
{
    let bundle = read(alloc, bytes)?;
    let names = name(alloc, bundle)?;
    judge_named(alloc, names)
}

/// The number of the function with that name, where a run may begin with it.
///
/// Else the line is `refused entry FAULT`.
pub fn enter(alloc: Global, code: &Checked, name: &str) -> Result<u32, Stop>
    requires { LoadedRunsEnd code.now }
    ensures number { Comes (entered code.now name.now) result }
    ensures begins { IfOk result (CanBegin code.now) }
{
    match code.entry(name) {
        Ok(number) => Ok(number),
        Err(fault) => {
            let mut text = Vec::from_slice(alloc, b"refused entry ")?;
            text.extend_from_slice(entry_fault_name(fault).as_bytes())?;
            Err(Stop::Line(text, Status::Refused))
        }
    }
}

// A checked bundle is lent on the way, so that each function drops it at one place at most: the proof of a drop goes through all
// its parts.

/// What `mu check` asks of a text: a bundle that meets all demands on it.
pub fn judge_for_check(alloc: Global, bytes: &[u8]) -> Result<Ready, Stop>
    ensures asked { Comes (for_check bytes.now) result }
    ensures there { IfOk result CanRun }
{
    let bundle = read(alloc, bytes)?;
    let names = name(alloc, bundle)?;
    judge_alone(alloc, names)
}

/// What `mu print` asks of a text: a bundle.
pub fn judge_for_print(alloc: Global, bytes: &[u8]) -> Result<Ready, Stop>
    ensures asked { Comes (for_print bytes.now) result }
    ensures there { IfOk result CanRun }
{
    Ok(Ready::Canonical(read(alloc, bytes)?))
}

/// What `mu run` asks of a bundle's text: a bundle that meets all demands on it. Its runs have an ending.
pub fn judge_for_run(alloc: Global, bytes: &[u8]) -> Result<Checked, Stop>
    ensures asked { Comes (accepted bytes.now) result }
    ensures ends { IfOk result LoadedRunsEnd }
{
    answer_is_one();
    entered_runs_have_an_ending();
    loaded_settings_fit();
    match accept(alloc, bytes) {
        Ok(code) => Ok(code),
        Err(stop) => Err(stop),
    }
}

// ---- the other files of a run

/// The script for the heap that a text spells among the names of a bundle.
pub fn read_heap_script(alloc: Global, bytes: &[u8], code: &Checked) -> Result<Hail, Stop>
    ensures { Comes (hail_part code.now bytes.now) result }
{
    match read_hail(alloc, bytes, code) {
        Ok(hail) => Ok(hail),
        Err(Fault::Memory) => Err(Stop::Memory),
        Err(Fault::At { kind, place }) => Err(refused(
            alloc,
            What::Hail,
            place,
            hail_fault_name(kind),
        )?),
    }
}

/// The client of a run: the script that a text spells among the names of a bundle. After its last entry zero and NULL are passed where
/// `auto` is given, and else the run is stopped. An empty text is a script without entries.
///
/// Where the text is no script the line is `refused client PLACE FAULT`.
pub fn judge_client(
    alloc: Global,
    bytes: &[u8],
    code: &Checked,
    auto: bool,
) -> Result<RunClient, Stop>
    ensures asked { Comes (client_part code.now auto bytes.now) result }
    ensures scripted { IfOk result (IsScripted code.now) }
{
    match read_script(alloc, bytes, code) {
        Ok(script) => Ok(RunClient::new(script, auto)),
        Err(Fault::Memory) => Err(Stop::Memory),
        Err(Fault::At { kind, place }) => Err(refused(
            alloc,
            What::Client,
            place,
            script_fault_name(kind),
        )?),
    }
}

/// The schedule that a text spells.
pub fn judge_schedule(alloc: Global, bytes: &[u8]) -> Result<Schedule, Stop>
    ensures { Comes (scheduled bytes.now) result }
{
    match read_schedule(alloc, bytes) {
        Ok(picks) => Ok(picks),
        Err(Fault::Memory) => Err(Stop::Memory),
        Err(Fault::At { kind, place }) => Err(refused(
            alloc,
            What::Schedule,
            place,
            schedule_fault_name(kind),
        )?),
    }
}
