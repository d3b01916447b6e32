// Reads the words of the command line.
ghost use Rattle.std.specs.Prelude.{◌≡◌, ◌<◌, ◌≤◌, IfSome, length, drop};
ghost use Rattle.mu_command.specs.Job.{word, is_digit, digits_up_to, number_up_to, pairs_asked, judge_with, join_of, no_options, with_option, with_all, rule_named, run_with, job_of, AreThere, OptionsAreThere};

use crate::job::{Job, RunJob};
use crate::options::Options;
use mem_axioms::Rule;
use mu_base::Words;

/// How many steps a run may make where no word says it.
pub const USUAL_STEPS: u32 = 200_000;

// How many steps a word may say.
const MOST_STEPS: u32 = 1_000_000;

/// How many cells a run may make beside those of the globals where no word says it.
pub const USUAL_CELLS: u32 = 100_000;

// How many cells a word may say.
const MOST_CELLS: u32 = 1_000_000;

// How many pairs a made bundle may have.
const MOST_PAIRS: u32 = 1_000;

fn is_digit(byte: u8) -> bool
    ensures { result ≡ is_digit byte }
{
    48 <= byte && byte <= 57
}

// The number whose decimal digits the bytes are, where it is at most the limit.
fn digits_up_to(limit: u32, text: &[u8]) -> Option<u32>
    ensures number { result ≡ digits_up_to limit 0 text.now }
    ensures within { IfSome result (λ n. n ≤ limit) }
{
    let mut number = 0u32;
    let mut left = text;
    'each: while let [byte, more @ ..] = left {
        if !is_digit(*byte) {
            return None;
        }
        let next = 10 * number as u64 + (*byte - 48) as u64;
        if next > limit as u64 {
            return None;
        }
        number = next as u32;
        left = more;
    }
    Some(number)
}

/// The number that one to ten decimal digits write, where it is at most the limit.
pub fn number_up_to(limit: u32, text: &[u8]) -> Option<u32>
    ensures number { result ≡ number_up_to limit text.now }
    ensures within { IfSome result (λ n. n ≤ limit) }
{
    if 1 <= text.len() && text.len() <= 10 {
        digits_up_to(limit, text)
    } else {
        None
    }
}

// How many pairs a word asks for: one to ten decimal digits, of a number from 1 on.
fn pairs_asked(text: &[u8]) -> Option<u32>
    ensures { result ≡ pairs_asked text.now }
{
    let n = number_up_to(MOST_PAIRS, text)?;
    if 1 <= n { Some(n) } else { None }
}

// How many bundles may be joined.
const MOST_BUNDLES: usize = 16;

// The rule of release sequences that a word names.
fn rule_named(text: &str) -> Option<Rule>
    ensures { result ≡ rule_named text.now }
{
    if text == "c11" {
        Some(Rule::C11)
    } else if text == "rmw" {
        Some(Rule::Rmw)
    } else {
        None
    }
}

/// The options with one more, of that name; its value is the word with number n. None where there is no such option, where it was given
/// before, and where its value is none of its values.
pub fn with_option(words: &Words, options: Options, name: &str, n: usize) -> Option<Options>
    requires value { n < length words.now }
    requires there { OptionsAreThere (length words.now) options }
    ensures more { result ≡ with_option options name.now n (word words.now n) }
    ensures there { IfSome result (OptionsAreThere (length words.now)) }
{
    let value = words.word(n);
    if name == "--entry" {
        options.with_entry(Some(n))
    } else if name == "--steps" {
        options.with_steps(number_up_to(MOST_STEPS, value.as_bytes()))
    } else if name == "--cells" {
        options.with_cells(number_up_to(MOST_CELLS, value.as_bytes()))
    } else if name == "--hail" {
        options.with_hail(Some(n))
    } else if name == "--client" {
        options.with_client(Some(n))
    } else if name == "--schedule" {
        options.with_schedule(Some(n))
    } else if name == "--release-sequences" {
        options.with_rule(rule_named(value))
    } else {
        None
    }
}

// All options behind the file.
#[tactic(auto, using(crate::proofs::Reading::reading))]
fn all_options(words: &Words) -> Option<Options>
    requires { 2 ≤ length words.now }
    ensures all { result ≡ with_all no_options 2 (drop 2 words.now) }
    ensures there { IfSome result (OptionsAreThere (length words.now)) }
{
    let count = words.len();
    let mut options = Options::none();
    let mut n = 2;
    'each: while n < count {
        let name = words.word(n);
        if name == "--auto" {
            match options.with_auto() {
                Some(more) => options = more,
                None => return None,
            }
            n += 1;
            continue;
        }
        if n + 1 == count {
            return None;
        }
        match with_option(words, options, name, n + 1) {
            Some(more) => options = more,
            None => return None,
        }
        n += 2;
    }
    Some(options)
}

// The run with these options.
fn run_with(options: Options) -> Option<Job>
    ensures { result ≡ run_with options }
{
    let entry = options.entry?;
    Some(Job::Run(RunJob {
        file: 1,
        entry,
        hail: options.hail,
        client: options.client,
        auto: options.auto,
        schedule: options.schedule,
        rule: options.rule.unwrap_or(Rule::C11),
        budget: options.steps.unwrap_or(USUAL_STEPS),
        cells: options.cells.unwrap_or(USUAL_CELLS),
    }))
}

// The judging of the file that word 1 names, by the rule that the words after it name.
#[tactic(auto, using(crate::proofs::Reading::judging_words))]
fn judge_with(words: &Words) -> Option<Job>
    requires { 2 ≤ length words.now }
    ensures job { result ≡ judge_with (drop 2 words.now) }
    ensures there { IfSome result (AreThere words.now) }
{
    let count = words.len();
    if count == 2 {
        Some(Job::Judge {
            file: 1,
            rule: Rule::C11,
        })
    } else if count == 4 && words.word(2) == "--release-sequences" {
        let rule = rule_named(words.word(3))?;
        Some(Job::Judge { file: 1, rule })
    } else {
        None
    }
}

// The joining of the files that all words after the first name.
fn join_of(words: &Words) -> Option<Job>
    requires { 2 ≤ length words.now }
    ensures job { result ≡ join_of (length words.now) }
    ensures there { IfSome result (AreThere words.now) }
{
    let count = words.len();
    if count <= 1 + MOST_BUNDLES {
        Some(Job::Join {
            first: 1,
            files: count - 1,
        })
    } else {
        None
    }
}

/// What the words ask for: `check FILE`, `print FILE`, `trial N`, or `run FILE` with options in any order, each at most once:
/// `--entry NAME`, which is required, `--hail F`, `--client F`, `--auto`, `--schedule F`, `--release-sequences c11` or `rmw`, `--steps N`
/// and `--cells N`. `--auto` has no value; the value of another option is the next word, whatever it is. The N of a trial is a number from
/// 1 to 1,000. Or `judge FILE`, with `--release-sequences c11` or `rmw` after the file or not; or `join` with 1 to 16 files. None exactly
/// where they are no such words. It takes no memory.
#[tactic(auto, unfolding(crate::specs::Job::job_of))]
pub fn read_words(words: &Words) -> Option<Job>
    ensures job { result ≡ job_of words.now }
    ensures there { IfSome result (AreThere words.now) }
{
    if words.len() == 2 && words.word(0) == "check" {
        Some(Job::Check { file: 1 })
    } else if words.len() == 2 && words.word(0) == "print" {
        Some(Job::Print { file: 1 })
    } else if words.len() == 2 && words.word(0) == "trial" {
        match pairs_asked(words.word(1).as_bytes()) {
            Some(n) => Some(Job::Trial { n }),
            None => None,
        }
    } else if 2 <= words.len() && words.word(0) == "run" {
        match all_options(words) {
            Some(options) => run_with(options),
            None => None,
        }
    } else if 2 <= words.len() && words.word(0) == "judge" {
        judge_with(words)
    } else if 2 <= words.len() && words.word(0) == "join" {
        join_of(words)
    } else {
        None
    }
}
