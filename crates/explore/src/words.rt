// Reads the words of the command line.
ghost use Rattle.std.specs.Prelude.{◌≡◌, ◌<◌, ◌≤◌, IfSome, length, drop};
ghost use Rattle.mu_command.specs.Job.{word};
ghost use Rattle.explore.specs.Asked.{none_given, runs_asked, with_option, with_auto, with_all, search_with, search_of};
ghost use Rattle.explore.specs.Reading.{SearchIsThere, SearchOptionsAreThere};

use crate::options::SearchOptions;
use crate::search::Search;
use mem_axioms::Rule;
use mu_base::Words;
use mu_command::{RunJob, USUAL_CELLS, number_up_to};

// How many steps each run may make where no word says it.
const USUAL_STEPS: u32 = 1_000;

// How many runs are made where no word says it, and how many a word may say.
const USUAL_RUNS: u32 = 1_000_000;

const MOST_RUNS: u32 = 100_000_000;

// How many runs a word asks for: one to ten decimal digits, of a number from 1 on.
fn runs_asked(text: &[u8]) -> Option<u32>
    ensures { result ≡ runs_asked text.now }
{
    let n = number_up_to(MOST_RUNS, text)?;
    if 1 <= n { Some(n) } else { None }
}

// The options with one more, of that name; its value is the word with number n.
#[tactic(auto, using(crate::proofs::Reading::adding))]
fn with_option(words: &Words, options: SearchOptions, name: &str, n: usize) -> Option<SearchOptions>
    requires value { n < length words.now }
    requires there { SearchOptionsAreThere (length words.now) options }
    ensures more { result ≡ with_option options name.now n (word words.now n) }
    ensures there { IfSome result (SearchOptionsAreThere (length words.now)) }
{
    if name == "--runs" {
        options.with_runs(runs_asked(words.word(n).as_bytes()))
    } else if name == "--condition" {
        options.with_condition(Some(n))
    } else if name == "--schedule" {
        None
    } else {
        options.with_run(mu_command::with_option(words, options.run, name, n))
    }
}

// The options with `--auto`.
fn with_auto(options: SearchOptions) -> Option<SearchOptions>
    ensures { result ≡ with_auto options }
{
    options.with_run(options.run.with_auto())
}

// All options after the file.
#[tactic(auto, using(crate::proofs::Reading::reading))]
fn all_options(words: &Words) -> Option<SearchOptions>
    requires { 2 ≤ length words.now }
    ensures all { result ≡ with_all none_given 2 (drop 2 words.now) }
    ensures there { IfSome result (SearchOptionsAreThere (length words.now)) }
{
    let count = words.len();
    let mut options = SearchOptions::none();
    let mut n = 2;
    'each: while n < count {
        let name = words.word(n);
        if name == "--auto" {
            match with_auto(options) {
                Some(more) => options = more,
                None => return None,
            }
            n += 1;
            continue;
        }
        if n + 1 == count {
            return None;
        }
        match with_option(words, options, name, n + 1) {
            Some(more) => options = more,
            None => return None,
        }
        n += 2;
    }
    Some(options)
}

// The search with these options.
fn search_with(options: SearchOptions) -> Option<Search>
    ensures { result ≡ search_with options }
{
    let entry = options.run.entry?;
    Some(Search {
        run: RunJob {
            file: 1,
            entry,
            hail: options.run.hail,
            client: options.run.client,
            auto: options.run.auto,
            schedule: None,
            rule: options.run.rule.unwrap_or(Rule::C11),
            budget: options.run.steps.unwrap_or(USUAL_STEPS),
            cells: options.run.cells.unwrap_or(USUAL_CELLS),
        },
        runs: options.runs.unwrap_or(USUAL_RUNS),
        condition: options.condition,
    })
}

/// What the words ask for; None where that is no search.
#[tactic(auto, using(crate::proofs::Reading::asking), unfolding(crate::specs::Asked::search_of))]
pub fn read_words(words: &Words) -> Option<Search>
    ensures asked { result ≡ search_of words.now }
    ensures there { IfSome result (SearchIsThere (length words.now)) }
{
    if 2 <= words.len() && words.word(0) == "explore" {
        match all_options(words) {
            Some(options) => search_with(options),
            None => None,
        }
    } else {
        None
    }
}
