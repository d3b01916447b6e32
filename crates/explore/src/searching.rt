// The search itself: its files are fetched, and its runs are made.
ghost use Rattle.std.specs.Prelude.{◌≡◌, ◌≤◌, ℕ, Some, IfOk, length};
ghost use Rattle.mu_texts.specs.Comes.{LoadedRunsEnd};
ghost use Rattle.mu_command.specs.Written.{IsWhole};
ghost use Rattle.run_search.specs.Given.{IsReady};
ghost use Rattle.explore.specs.Answers.{IsSearch};
ghost use Rattle.explore.specs.Asked.{search_of};
ghost use Rattle.explore.specs.Reading.{SearchIsThere};
ghost use Rattle.explore.specs.Parts.{started_of, answer_in, IsMade, IsFound};

use crate::conditions_file::find_conditions;
use crate::finding::find_player;
use crate::search::Search;
use crate::writing::search_status;
use checked_code::Checked;
use condition_answers::answer_all;
use conditions::Condition;
use leaf_laws::local_runs_are_among;
use local_laws::local_searches_are_complete;
use mu_base::{Inputs, Status, Words};
use mu_command::find_code;
use mu_texts::Stop;
use name_scopes::Scope;
use odometer::{Watch, search_all};
use run_search::Player;
use search_texts::{is_complete, search_text};
use std::alloc::{AllocError, Global};
use std::mem;

// Makes the first runs, so many, and writes what they come to, and the answers to the conditions.
fn make_runs<W: Watch>(
    alloc: Global,
    player: &mut Player,
    runs: u32,
    conditions: &[Condition],
    watch: &mut W,
) -> Result<(Vec<u8>, Status), AllocError>
    requires ready { IsReady player.old }
    ensures searched { IfOk result (λ made. IsSearch player.old.bundle (started_of player.old) runs conditions.now (answer_in made)) }
    ensures whole { IfOk result (λ made. IsWhole made.1) }
{
    local_searches_are_complete();
    local_runs_are_among();
    let searched = search_all(alloc, player, runs, watch)?;
    let complete = is_complete(searched.left, searched.says);
    let answered = answer_all(alloc, &searched.found, complete, conditions)?;
    let lines = answered.lines.as_slice();
    let text = search_text(alloc, &searched, lines)?;
    let status = search_status(searched.left, searched.says, conditions, answered.status);
    Ok((text, status))
}

// Searches through the runs of a bundle.
fn search_code<I: Inputs, W: Watch>(
    alloc: Global,
    words: &Words,
    asked: Search,
    code: &Checked,
    inputs: &mut I,
    watch: &mut W,
) -> Result<(Vec<u8>, Status), Stop>
    requires there { SearchIsThere (length words.now) asked }
    requires ends { LoadedRunsEnd code.now }
    ensures same { I.holds inputs.new ≡ I.holds inputs.old }
    ensures bundle_slot { I.faults inputs.new 0 ≡ I.faults inputs.old 0 }
    ensures never_falls { (s : ℕ) → I.faults inputs.old s ≤ I.faults inputs.new s }
    ensures made { IsMade (record { told = I.holds inputs.old; before = I.faults inputs.old; now = I.faults inputs.new }) words.now asked code.now result }
    ensures whole { IfOk result (λ made. IsWhole made.1) }
{
    let mut names = Scope::new(alloc);
    let mut player = find_player(alloc, words, asked.run, code, inputs, &mut names)?;
    let conditions = find_conditions(alloc, words, asked.condition, &names, inputs)?;
    let list = conditions.as_slice();
    let made = make_runs(alloc, &mut player, asked.runs, list, watch)?;
    Ok(made)
}

/// Fetches the files of a search, and searches. The bundle is not given back part by part, since the process ends.
pub fn find_searched<I: Inputs, W: Watch>(
    alloc: Global,
    words: &Words,
    asked: Search,
    inputs: &mut I,
    watch: &mut W,
) -> Result<(Vec<u8>, Status), Stop>
    requires there { SearchIsThere (length words.now) asked }
    requires asked { search_of words.now ≡ Some asked }
    ensures same { I.holds inputs.new ≡ I.holds inputs.old }
    ensures never_falls { (s : ℕ) → I.faults inputs.old s ≤ I.faults inputs.new s }
    ensures found { IsFound (record { told = I.holds inputs.old; before = I.faults inputs.old; now = I.faults inputs.new }) words.now result }
    ensures whole { IfOk result (λ made. IsWhole made.1) }
{
    let code = find_code(alloc, words, asked.run.file, inputs)?;
    let made = search_code(alloc, words, asked, &code, inputs, watch);
    mem::forget(code);
    made
}
