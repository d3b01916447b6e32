// The first half of the program: finds what is to be written.
ghost use Rattle.std.specs.Prelude.{◌≡◌, ◌≢◌, ◌<◌, ◌≤◌, ℕ, None, Some, IfOk, IfSome, length};
ghost use Rattle.demands.specs.Demands.{first_unmet};
ghost use Rattle.mu_texts.specs.What.{slot_of};
ghost use Rattle.loaded_programs.specs.Laws.{IsScripted};
ghost use Rattle.mu_texts.specs.Answer.{for_check, for_print, for_judge, accepted, loaded, client_part, scheduled};
ghost use Rattle.mu_texts.specs.Comes.{IsFilled, IsRunnable, LoadedRunsEnd, CanRun};
ghost use Rattle.mu_command.specs.Job.{job_of, AreThere, IsThere};
ghost use Rattle.mu_command.specs.Parts.{IsJudged, IsBegun, IsFound, objects_in};

use crate::job::{Job, RunJob};
use crate::joining::find_joined;
use crate::loading::load;
use crate::made::find_trial;
use crate::words::read_words;
use checked_code::Checked;
use client_script::RunClient;
use mem_axioms::Rule;
use mu_base::{Inputs, Status, Words};
use mu_texts::{
    Ready, Start, Stop, Telling, What, enter, judge_client, judge_for_check, judge_for_print,
    judge_for_run, judge_heap_script, judge_log, judge_schedule,
};
use mu_threads::Schedule;
use std::alloc::Global;
use std::mem;
use typed_heap::Heap;

// Fetches a bundle and judges it, for `mu check`.
#[tactic(auto, using(crate::specs::Lemmas::Files::files))]
fn find_checked<I: Inputs>(
    alloc: Global,
    words: &Words,
    file: usize,
    inputs: &mut I,
) -> Result<Ready, Stop>
    requires { file < length words.now }
    ensures same { I.holds inputs.new ≡ I.holds inputs.old }
    ensures other_slots { (s : ℕ) → s ≢ slot_of What.Bundle → I.faults inputs.new s ≡ I.faults inputs.old s }
    ensures never_falls { (s : ℕ) → I.faults inputs.old s ≤ I.faults inputs.new s }
    ensures judged { IsJudged (record { told = I.holds inputs.old; before = I.faults inputs.old; now = I.faults inputs.new }) words.now What.Bundle (Some file) for_check result }
    ensures there { IfOk result CanRun }
{
    let bytes = load(alloc, words, What::Bundle, Some(file), inputs)?;
    judge_for_check(alloc, &bytes)
}

// Fetches a bundle and reads it, for `mu print`.
#[tactic(auto, using(crate::specs::Lemmas::Files::files))]
fn find_printed<I: Inputs>(
    alloc: Global,
    words: &Words,
    file: usize,
    inputs: &mut I,
) -> Result<Ready, Stop>
    requires { file < length words.now }
    ensures same { I.holds inputs.new ≡ I.holds inputs.old }
    ensures other_slots { (s : ℕ) → s ≢ slot_of What.Bundle → I.faults inputs.new s ≡ I.faults inputs.old s }
    ensures never_falls { (s : ℕ) → I.faults inputs.old s ≤ I.faults inputs.new s }
    ensures judged { IsJudged (record { told = I.holds inputs.old; before = I.faults inputs.old; now = I.faults inputs.new }) words.now What.Bundle (Some file) for_print result }
    ensures there { IfOk result CanRun }
{
    let bytes = load(alloc, words, What::Bundle, Some(file), inputs)?;
    judge_for_print(alloc, &bytes)
}

// Fetches a log and judges it.
#[tactic(auto, using(crate::specs::Lemmas::Files::files))]
fn find_verdict<I: Inputs>(
    alloc: Global,
    words: &Words,
    file: usize,
    rule: Rule,
    inputs: &mut I,
) -> Result<Ready, Stop>
    requires { file < length words.now }
    ensures same { I.holds inputs.new ≡ I.holds inputs.old }
    ensures other_slots { (s : ℕ) → s ≢ slot_of What.Log → I.faults inputs.new s ≡ I.faults inputs.old s }
    ensures never_falls { (s : ℕ) → I.faults inputs.old s ≤ I.faults inputs.new s }
    ensures judged { IsJudged (record { told = I.holds inputs.old; before = I.faults inputs.old; now = I.faults inputs.new }) words.now What.Log (Some file) (for_judge rule) result }
    ensures there { IfOk result CanRun }
{
    let bytes = load(alloc, words, What::Log, Some(file), inputs)?;
    judge_log(alloc, rule, &bytes)
}

/// Fetches a bundle and judges it, for a run. After a refusal there is only the line that names it.
#[tactic(auto, using(crate::specs::Lemmas::Files::files))]
pub fn find_code<I: Inputs>(
    alloc: Global,
    words: &Words,
    file: usize,
    inputs: &mut I,
) -> Result<Checked, Stop>
    requires { file < length words.now }
    ensures same { I.holds inputs.new ≡ I.holds inputs.old }
    ensures other_slots { (s : ℕ) → s ≢ slot_of What.Bundle → I.faults inputs.new s ≡ I.faults inputs.old s }
    ensures never_falls { (s : ℕ) → I.faults inputs.old s ≤ I.faults inputs.new s }
    ensures judged { IsJudged (record { told = I.holds inputs.old; before = I.faults inputs.old; now = I.faults inputs.new }) words.now What.Bundle (Some file) accepted result }
    ensures ends { IfOk result LoadedRunsEnd }
{
    let bytes = load(alloc, words, What::Bundle, Some(file), inputs)?;
    judge_for_run(alloc, &bytes)
}

// Fetches the script for the heap, and fills it.
#[tactic(auto, using(crate::specs::Lemmas::Files::files))]
fn find_heap<I: Inputs>(
    alloc: Global,
    words: &Words,
    run: RunJob,
    code: &Checked,
    inputs: &mut I,
) -> Result<Heap, Stop>
    requires { IfSome run.hail (λ n. n < length words.now) }
    ensures same { I.holds inputs.new ≡ I.holds inputs.old }
    ensures other_slots { (s : ℕ) → s ≢ slot_of What.Hail → I.faults inputs.new s ≡ I.faults inputs.old s }
    ensures never_falls { (s : ℕ) → I.faults inputs.old s ≤ I.faults inputs.new s }
    ensures judged { IsJudged (record { told = I.holds inputs.old; before = I.faults inputs.old; now = I.faults inputs.new }) words.now What.Hail run.hail (loaded code.now run.cells) (objects_in result) }
    ensures filled { IfOk result (IsFilled code.now run.cells) }
{
    let bytes = load(alloc, words, What::Hail, run.hail, inputs)?;
    judge_heap_script(alloc, &bytes, code, run.cells)
}

// Fetches the script of the client and reads it.
#[tactic(auto, using(crate::specs::Lemmas::Files::files))]
fn find_client<I: Inputs>(
    alloc: Global,
    words: &Words,
    run: RunJob,
    code: &Checked,
    inputs: &mut I,
) -> Result<RunClient, Stop>
    requires { IfSome run.client (λ n. n < length words.now) }
    ensures same { I.holds inputs.new ≡ I.holds inputs.old }
    ensures other_slots { (s : ℕ) → s ≢ slot_of What.Client → I.faults inputs.new s ≡ I.faults inputs.old s }
    ensures never_falls { (s : ℕ) → I.faults inputs.old s ≤ I.faults inputs.new s }
    ensures judged { IsJudged (record { told = I.holds inputs.old; before = I.faults inputs.old; now = I.faults inputs.new }) words.now What.Client run.client (client_part code.now run.auto) result }
    ensures scripted { IfOk result (IsScripted code.now) }
{
    let bytes = load(alloc, words, What::Client, run.client, inputs)?;
    judge_client(alloc, &bytes, code, run.auto)
}

// Fetches the schedule and reads it.
#[tactic(auto, using(crate::specs::Lemmas::Files::files))]
fn find_picks<I: Inputs>(
    alloc: Global,
    words: &Words,
    run: RunJob,
    inputs: &mut I,
) -> Result<Schedule, Stop>
    requires { IfSome run.schedule (λ n. n < length words.now) }
    ensures same { I.holds inputs.new ≡ I.holds inputs.old }
    ensures other_slots { (s : ℕ) → s ≢ slot_of What.Schedule → I.faults inputs.new s ≡ I.faults inputs.old s }
    ensures never_falls { (s : ℕ) → I.faults inputs.old s ≤ I.faults inputs.new s }
    ensures judged { IsJudged (record { told = I.holds inputs.old; before = I.faults inputs.old; now = I.faults inputs.new }) words.now What.Schedule run.schedule scheduled result }
{
    let bytes = load(alloc, words, What::Schedule, run.schedule, inputs)?;
    judge_schedule(alloc, &bytes)
}

// How the run of a bundle begins.
#[tactic(auto, using(crate::specs::Lemmas::Beginnings::beginnings))]
fn find_start<I: Inputs>(
    alloc: Global,
    words: &Words,
    run: RunJob,
    code: &Checked,
    inputs: &mut I,
) -> Result<Start, Stop>
    requires there { IsThere (length words.now) run }
    requires ends { LoadedRunsEnd code.now }
    ensures same { I.holds inputs.new ≡ I.holds inputs.old }
    ensures bundle_slot { I.faults inputs.new 0 ≡ I.faults inputs.old 0 }
    ensures never_falls { (s : ℕ) → I.faults inputs.old s ≤ I.faults inputs.new s }
    ensures begun { IsBegun (record { told = I.holds inputs.old; before = I.faults inputs.old; now = I.faults inputs.new }) words.now run code.now result }
    ensures there { IfOk result (IsRunnable code.now) }
{
    let entry = enter(alloc, code, words.word(run.entry))?;
    let heap = find_heap(alloc, words, run, code, inputs)?;
    let client = find_client(alloc, words, run, code, inputs)?;
    let picks = find_picks(alloc, words, run, inputs)?;
    Ok(Start {
        entry,
        heap,
        client,
        picks,
        rule: run.rule,
        cells: run.cells,
        budget: run.budget,
    })
}

// The run that is asked for. Each `?` at a value of many parts would make the proof longer, and a refused bundle is not given back
// part by part, since the process ends.
#[tactic(auto, using(crate::proofs::Together::together_rules))]
fn find_run<I: Inputs>(
    alloc: Global,
    words: &Words,
    run: RunJob,
    inputs: &mut I,
) -> Result<Ready, Stop>
    requires there { IsThere (length words.now) run }
    requires job { job_of words.now ≡ Some (Job.Run run) }
    ensures same { I.holds inputs.new ≡ I.holds inputs.old }
    ensures never_falls { (s : ℕ) → I.faults inputs.old s ≤ I.faults inputs.new s }
    ensures found { IsFound (record { told = I.holds inputs.old; before = I.faults inputs.old; now = I.faults inputs.new }) words.now result }
    ensures there { IfOk result CanRun }
{
    match find_code(alloc, words, run.file, inputs) {
        Ok(code) => match find_start(alloc, words, run, &code, inputs) {
            Ok(start) => Ok(Ready::Entered {
                code,
                start,
                telling: Telling::Lines,
            }),
            Err(stop) => {
                mem::forget(code);
                Err(stop)
            }
        },
        Err(stop) => Err(stop),
    }
}

// Fetches the files of a job and judges them.
#[tactic(auto, using(crate::proofs::Together::together_rules))]
fn find_job<I: Inputs>(
    alloc: Global,
    words: &Words,
    job: Job,
    inputs: &mut I,
) -> Result<Ready, Stop>
    requires there { AreThere words.now job }
    requires job { job_of words.now ≡ Some job }
    ensures same { I.holds inputs.new ≡ I.holds inputs.old }
    ensures never_falls { (s : ℕ) → I.faults inputs.old s ≤ I.faults inputs.new s }
    ensures found { IsFound (record { told = I.holds inputs.old; before = I.faults inputs.old; now = I.faults inputs.new }) words.now result }
    ensures there { IfOk result CanRun }
{
    match job {
        Job::Check { file } => find_checked(alloc, words, file, inputs),
        Job::Print { file } => find_printed(alloc, words, file, inputs),
        Job::Run(run) => find_run(alloc, words, run, inputs),
        Job::Trial { n } => find_trial(alloc, n),
        Job::Judge { file, rule } => find_verdict(alloc, words, file, rule, inputs),
        Job::Join { first, files } => find_joined(alloc, words, first, files, inputs),
    }
}

/// Reads the words, fetches the files and judges them.
#[tactic(auto, using(crate::proofs::Together::together_rules))]
pub fn find<I: Inputs>(alloc: Global, words: &Words, inputs: &mut I) -> Result<Ready, Stop>
    ensures same { I.holds inputs.new ≡ I.holds inputs.old }
    ensures never_falls { (s : ℕ) → I.faults inputs.old s ≤ I.faults inputs.new s }
    ensures found { IsFound (record { told = I.holds inputs.old; before = I.faults inputs.old; now = I.faults inputs.new }) words.now result }
    ensures there { IfOk result CanRun }
{
    match read_words(words) {
        Some(job) => find_job(alloc, words, job, inputs),
        None => Err(Stop::Line(Vec::from_slice(alloc, b"usage")?, Status::Usage)),
    }
}
