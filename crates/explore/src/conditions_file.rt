// Fetches the file of conditions, and reads it.
ghost use Rattle.std.specs.Prelude.{◌≡◌, ◌≢◌, ◌<◌, ◌≤◌, ◌++◌, [], ℕ, codes, decimal, length, IfOk, IfSome, OnOk};
ghost use Rattle.mu_texts.specs.Refusals as refusals;
ghost use Rattle.mu_texts.specs.Comes.{Comes};
ghost use Rattle.explore.specs.Conditions.{condition_slot, condition_fault_name, condition_part};
ghost use Rattle.explore.specs.Parts.{numbered_finals, IsConditionLoaded, AreAsked};

use conditions::{Condition, ConditionFault, ConditionKind, read_conditions};
use itoa::Buffer;
use mu_base::{FetchFault, Inputs, Status, Words};
use mu_texts::Stop;
use name_scopes::Scope;
use seen_runs::Final;
use std::alloc::{AllocError, Global};
use text_forms::{FaultKind, Listing};

// The most bytes of a file.
const FILE_LIMIT: usize = 1_048_576;

// The slot of the file.
const SLOT: u32 = 4;

/// Names the globals, by their places among them from 0 on; the first of a name stands. It fails only out of memory, or where there are
/// 2^32 of them, which no bundle has.
pub fn name_finals(
    alloc: Global,
    finals: &[Final],
    names: &mut Scope<u32>,
) -> Result<(), AllocError>
    requires { names.old ≡ [] }
    ensures { OnOk result (names.new ≡ numbered_finals 0 [] finals.now) }
{
    let mut number = 0u32;
    let mut left = finals;
    'each: while let [global, rest @ ..] = left {
        names.define(alloc, global.name.as_slice(), number)?;
        let Some(next) = number.checked_add(1) else {
            return Err(AllocError);
        };
        number = next;
        left = rest;
    }
    Ok(())
}

// The name of a text's fault in refusals.
fn text_fault_name(kind: FaultKind) -> &'static str
    ensures { result.now ≡ refusals.text_fault_name kind }
{
    match kind {
        FaultKind::BadByte => "BadByte",
        FaultKind::BadName => "BadName",
        FaultKind::NumberTooLarge => "NumberTooLarge",
        FaultKind::TooLong => "TooLong",
        FaultKind::Unexpected => "Unexpected",
        FaultKind::NotInProfile => "NotInProfile",
        FaultKind::TooMany => "TooMany",
    }
}

fn condition_fault_name(kind: ConditionKind) -> &'static str
    ensures { result.now ≡ condition_fault_name kind }
{
    match kind {
        ConditionKind::Text(kind) => text_fault_name(kind),
        ConditionKind::Unknown => "Unknown",
    }
}

// `refused condition PLACE FAULT`
fn refusal(alloc: Global, place: usize, kind: ConditionKind) -> Result<Vec<u8>, AllocError>
    ensures { IfOk result (λ text. text.items ≡ codes "refused condition " ++ decimal place ++ codes " " ++ condition_fault_name kind) }
{
    let mut buffer = Buffer::new();
    let mut text = Vec::from_slice(alloc, b"refused condition ")?;
    text.extend_from_slice(buffer.format(place).as_bytes())?;
    text.extend_from_slice(b" ")?;
    text.extend_from_slice(condition_fault_name(kind).as_bytes())?;
    Ok(text)
}

// The conditions that a text spells.
fn judge_conditions(
    alloc: Global,
    bytes: &[u8],
    names: &Scope<u32>,
) -> Result<Listing<Condition>, Stop>
    ensures { Comes (condition_part names.now bytes.now) result }
{
    match read_conditions(alloc, bytes, names) {
        Ok(conditions) => Ok(conditions),
        Err(ConditionFault::Memory) => Err(Stop::Memory),
        Err(ConditionFault::At { kind, place }) => Err(Stop::Line(
            refusal(alloc, place, kind)?,
            Status::Refused,
        )),
    }
}

// Fetches the file that a word names.
fn load_conditions<I: Inputs>(
    alloc: Global,
    words: &Words,
    n: usize,
    inputs: &mut I,
) -> Result<Vec<u8>, Stop>
    requires { n < length words.now }
    ensures same { I.holds inputs.new ≡ I.holds inputs.old }
    ensures other_slots { (s : ℕ) → s ≢ condition_slot → I.faults inputs.new s ≡ I.faults inputs.old s }
    ensures never_falls { (s : ℕ) → I.faults inputs.old s ≤ I.faults inputs.new s }
    ensures loaded { IsConditionLoaded (record { told = I.holds inputs.old; before = I.faults inputs.old; now = I.faults inputs.new }) words.now n result }
{
    let mut bytes = Vec::new(alloc);
    match inputs.fetch(SLOT, words.word(n), FILE_LIMIT, &mut bytes) {
        Ok(()) => Ok(bytes),
        Err(FetchFault::Fault) => Err(Stop::Line(
            Vec::from_slice(alloc, b"read fault condition")?,
            Status::ReadFault,
        )),
        Err(FetchFault::TooLong) => Err(Stop::Line(
            Vec::from_slice(alloc, b"too long condition")?,
            Status::TooLong,
        )),
        Err(FetchFault::Memory) => Err(Stop::Memory),
    }
}

/// Fetches the conditions and reads them, by the names of the globals that outcomes show. Where no word names a file of them there are
/// none, and nothing is fetched.
#[tactic(auto, using(crate::proofs::Files::conditions_file))]
pub fn find_conditions<I: Inputs>(
    alloc: Global,
    words: &Words,
    n: Option<usize>,
    names: &Scope<u32>,
    inputs: &mut I,
) -> Result<Listing<Condition>, Stop>
    requires { IfSome n (λ n. n < length words.now) }
    ensures same { I.holds inputs.new ≡ I.holds inputs.old }
    ensures other_slots { (s : ℕ) → s ≢ condition_slot → I.faults inputs.new s ≡ I.faults inputs.old s }
    ensures never_falls { (s : ℕ) → I.faults inputs.old s ≤ I.faults inputs.new s }
    ensures asked { AreAsked (record { told = I.holds inputs.old; before = I.faults inputs.old; now = I.faults inputs.new }) words.now n names.now result }
{
    let Some(n) = n else {
        return Ok(Listing::new(alloc));
    };
    let bytes = load_conditions(alloc, words, n, inputs)?;
    judge_conditions(alloc, &bytes, names)
}
