// Fetches a file of the job.
ghost use Rattle.std.specs.Prelude.{◌≡◌, ◌≢◌, ◌<◌, ◌≤◌, ◌++◌, ℕ, length, Some, IfOk, IfSome};
ghost use Rattle.mu_texts.specs.What.{name_of, slot_of};
ghost use Rattle.mu_command.specs.Parts.{IsLoaded};

use mu_base::{FetchFault, Inputs, Status, Words};
use mu_texts::{Stop, What};
use std::alloc::{AllocError, Global};

// The most bytes of a file.
const FILE_LIMIT: usize = 1_048_576;

// A text, and then the name of the file.
fn naming(alloc: Global, text: &str, what: What) -> Result<Vec<u8>, AllocError>
    ensures { IfOk result (λ all. all.items ≡ text.now ++ name_of what) }
{
    let mut all = Vec::from_slice(alloc, text.as_bytes())?;
    what.append_name(&mut all)?;
    Ok(all)
}

// Fetches the file that a word names.
fn load_named<I: Inputs>(
    alloc: Global,
    words: &Words,
    what: What,
    n: usize,
    inputs: &mut I,
) -> Result<Vec<u8>, Stop>
    requires slot { slot_of what < 16 }
    requires there { n < length words.now }
    ensures same { I.holds inputs.new ≡ I.holds inputs.old }
    ensures other_slots { (s : ℕ) → s ≢ slot_of what → I.faults inputs.new s ≡ I.faults inputs.old s }
    ensures never_falls { (s : ℕ) → I.faults inputs.old s ≤ I.faults inputs.new s }
    ensures loaded { IsLoaded (record { told = I.holds inputs.old; before = I.faults inputs.old; now = I.faults inputs.new }) words.now what (Some n) result }
{
    let mut bytes = Vec::new(alloc);
    match inputs.fetch(what.slot(), words.word(n), FILE_LIMIT, &mut bytes) {
        Ok(()) => Ok(bytes),
        Err(FetchFault::Fault) => Err(Stop::Line(
            naming(alloc, "read fault ", what)?,
            Status::ReadFault,
        )),
        Err(FetchFault::TooLong) => Err(Stop::Line(
            naming(alloc, "too long ", what)?,
            Status::TooLong,
        )),
        Err(FetchFault::Memory) => Err(Stop::Memory),
    }
}

/// Fetches a file of the job; where no word names it, it is empty and nothing is fetched.
pub fn load<I: Inputs>(
    alloc: Global,
    words: &Words,
    what: What,
    n: Option<usize>,
    inputs: &mut I,
) -> Result<Vec<u8>, Stop>
    requires slot { slot_of what < 16 }
    requires there { IfSome n (λ n. n < length words.now) }
    ensures same { I.holds inputs.new ≡ I.holds inputs.old }
    ensures other_slots { (s : ℕ) → s ≢ slot_of what → I.faults inputs.new s ≡ I.faults inputs.old s }
    ensures never_falls { (s : ℕ) → I.faults inputs.old s ≤ I.faults inputs.new s }
    ensures loaded { IsLoaded (record { told = I.holds inputs.old; before = I.faults inputs.old; now = I.faults inputs.new }) words.now what n result }
{
    match n {
        Some(n) => load_named(alloc, words, what, n, inputs),
        None => Ok(Vec::new(alloc)),
    }
}
