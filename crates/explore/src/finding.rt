// Fetches the files of a search, and judges them.
ghost use Rattle.std.specs.Prelude.{◌≡◌, ◌≢◌, ◌<◌, ◌≤◌, ℕ, [], None, IfOk, IfSome, length};
ghost use Rattle.mu_texts.specs.What.{slot_of};
ghost use Rattle.mu_texts.specs.Answer.{loaded, client_part};
ghost use Rattle.mu_texts.specs.Comes.{LoadedRunsEnd};
ghost use Rattle.mu_command.specs.Job.{IsThere};
ghost use Rattle.mu_command.specs.Parts.{IsBegun};
ghost use Rattle.run_search.specs.Given.{IsReady};
ghost use Rattle.explore.specs.Conditions.{condition_slot};
ghost use Rattle.explore.specs.Parts.{IsGiven, IsFilledBy, numbered_finals, as_started};

use crate::conditions_file::name_finals;
use checked_code::Checked;
use mu_base::{Inputs, Words};
use mu_command::{RunJob, load};
use mu_texts::{Stop, What, enter, judge_client, judge_heap_script};
use name_scopes::Scope;
use run_search::{Player, Scripts};
use seen_runs::{Final, finals};
use std::alloc::Global;

/// The text of a script for the heap, and the globals whose last values are shown.
#[derive(Drop)]
pub struct Filled {
    pub hail: Vec<u8>,
    pub finals: Vec<Final>,
}

// Fetches the script for the heap, and fills a heap by it.
fn find_hail<I: Inputs>(
    alloc: Global,
    words: &Words,
    run: RunJob,
    code: &Checked,
    inputs: &mut I,
) -> Result<Filled, Stop>
    requires { IfSome run.hail (λ n. n < length words.now) }
    ensures same { I.holds inputs.new ≡ I.holds inputs.old }
    ensures other_slots { (s : ℕ) → s ≢ slot_of What.Hail → I.faults inputs.new s ≡ I.faults inputs.old s }
    ensures never_falls { (s : ℕ) → I.faults inputs.old s ≤ I.faults inputs.new s }
    ensures filled { IsFilledBy (record { told = I.holds inputs.old; before = I.faults inputs.old; now = I.faults inputs.new }) words.now run code.now result }
{
    let hail = load(alloc, words, What::Hail, run.hail, inputs)?;
    let heap = judge_heap_script(alloc, &hail, code, run.cells)?;
    let finals = finals(alloc, code, &heap)?;
    Ok(Filled { hail, finals })
}

// Fetches the script of the client, and reads it.
fn find_client<I: Inputs>(
    alloc: Global,
    words: &Words,
    run: RunJob,
    code: &Checked,
    inputs: &mut I,
) -> Result<Vec<u8>, Stop>
    requires { IfSome run.client (λ n. n < length words.now) }
    ensures same { I.holds inputs.new ≡ I.holds inputs.old }
    ensures other_slots { (s : ℕ) → s ≢ slot_of What.Client → I.faults inputs.new s ≡ I.faults inputs.old s }
    ensures never_falls { (s : ℕ) → I.faults inputs.old s ≤ I.faults inputs.new s }
    ensures given { IsGiven (record { told = I.holds inputs.old; before = I.faults inputs.old; now = I.faults inputs.new }) words.now What.Client run.client (client_part code.now run.auto) result }
{
    let client = load(alloc, words, What::Client, run.client, inputs)?;
    judge_client(alloc, &client, code, run.auto)?;
    Ok(client)
}

/// What makes the runs of a bundle: the entry is found, and the scripts are fetched and judged, each before the next is fetched. The
/// globals whose last values are shown get their names.
pub fn find_player<'a, I: Inputs>(
    alloc: Global,
    words: &Words,
    run: RunJob,
    code: &'a Checked,
    inputs: &mut I,
    names: &mut Scope<u32>,
) -> Result<Player<'a>, Stop>
    requires there { IsThere (length words.now) run }
    requires no_names { names.old ≡ [] }
    requires schedule { run.schedule ≡ None }
    requires ends { LoadedRunsEnd code.now }
    ensures same { I.holds inputs.new ≡ I.holds inputs.old }
    ensures bundle_slot { I.faults inputs.new 0 ≡ I.faults inputs.old 0 }
    ensures condition_slot { I.faults inputs.new condition_slot ≡ I.faults inputs.old condition_slot }
    ensures never_falls { (s : ℕ) → I.faults inputs.old s ≤ I.faults inputs.new s }
    ensures begun { IsBegun (record { told = I.holds inputs.old; before = I.faults inputs.old; now = I.faults inputs.new }) words.now run code.now (as_started result) }
    ensures same_code { IfOk result (λ player. player.bundle ≡ code.now) }
    ensures ready { IfOk result IsReady }
    ensures names { IfOk result (λ player. names.new ≡ numbered_finals 0 [] player.finals) }
{
    let entry = enter(alloc, code, words.word(run.entry))?;
    let filled = find_hail(alloc, words, run, code, inputs)?;
    name_finals(alloc, &filled.finals, names)?;
    let client = find_client(alloc, words, run, code, inputs)?;
    let scripts = Scripts {
        entry,
        hail: filled.hail,
        client,
        auto: run.auto,
        rule: run.rule,
        cells: run.cells,
        budget: run.budget,
    };
    let player = Player::new(alloc, code, scripts, filled.finals);
    Ok(player)
}
