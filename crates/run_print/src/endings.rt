// Endings.
ghost use Rattle.std.specs.Prelude.{◌≡◌, ◌++◌, OnOk, OnErr, codes, decimal};
ghost use Rattle.mu_base.specs.Files.{IsPrefix};
ghost use Rattle.run_texts.specs.EventTexts.{place_text};
ghost use Rattle.run_texts.specs.Texts.{case_text, race_text, ending_text, ending_status};

use crate::events::spaced_kind;
use crate::numbers::{numbered, wide_numbered, worded_threads};
use crate::records::placed;
use checked_code::Checked;
use mu_base::Status;
use mu_model::{Case, Ending, Raced};
use std::alloc::AllocError;

// The name of an undefined case.
fn case_name(case: Case) -> &'static str
    ensures { result.now ≡ case_text case }
{
    match case {
        Case::DivideByZero => "DivideByZero",
        Case::NullAccess => "NullAccess",
        Case::OutOfRange => "OutOfRange",
        Case::BadCast => "BadCast",
        Case::DeadCell => "DeadCell",
        Case::DataRace => "DataRace",
        Case::StackNotReady => "StackNotReady",
        Case::StackTypes => "StackTypes",
        Case::Uncaught => "Uncaught",
        Case::NullCall => "NullCall",
        Case::NoBody => "NoBody",
        Case::ClientMisuse => "ClientMisuse",
    }
}

// Appends the two events of a data race, where there is one. Where no memory is found a part of it may have been appended.
#[tactic(auto, using(mu_base::specs::Prefixes::prefix_self, mu_base::specs::Prefixes::prefix_longer, mu_base::specs::Prefixes::prefix_again))]
fn race_text(code: &Checked, race: Option<Raced>, out: &mut Vec<u8>) -> Result<(), AllocError>
    ensures appended { OnOk result (out.new.items ≡ out.old.items ++ race_text code.now race) }
    ensures begins { OnErr result (IsPrefix out.old.items out.new.items) }
{
    match race {
        None => Ok(()),
        Some(raced) => {
            spaced_kind(code, &raced.event.kind, out)?;
            numbered(b" with ", raced.earlier, out)
        }
    }
}

// Appends the name of an undefined case. Where no memory is found a part of it may have been appended.
#[tactic(auto, using(mu_base::specs::Prefixes::prefix_self, mu_base::specs::Prefixes::prefix_longer, mu_base::specs::Prefixes::prefix_again))]
fn case_words(case: Case, out: &mut Vec<u8>) -> Result<(), AllocError>
    ensures appended { OnOk result (out.new.items ≡ out.old.items ++ (codes "undefined " ++ case_text case)) }
    ensures begins { OnErr result (IsPrefix out.old.items out.new.items) }
{
    out.extend_from_slice(b"undefined ")?;
    out.extend_from_slice(case_name(case).as_bytes())
}

// Appends an undefined case of a thread at a place. Where no memory is found a part of it may have been appended.
#[tactic(auto, using(mu_base::specs::Prefixes::prefix_self, mu_base::specs::Prefixes::prefix_longer, mu_base::specs::Prefixes::prefix_again))]
fn undefined_case(
    code: &Checked,
    case: Case,
    thread: u32,
    block: u32,
    at: u32,
    out: &mut Vec<u8>,
) -> Result<(), AllocError>
    ensures appended { OnOk result (out.new.items ≡ out.old.items ++ (codes "undefined " ++ case_text case ++ codes " t" ++ decimal thread ++ codes " " ++ place_text code.now block at)) }
    ensures begins { OnErr result (IsPrefix out.old.items out.new.items) }
{
    case_words(case, out)?;
    placed(code, b" t", thread, block, at, out)
}

// Appends what was asked for and what is left. Where no memory is found a part of it may have been appended.
#[tactic(auto, using(mu_base::specs::Prefixes::prefix_self, mu_base::specs::Prefixes::prefix_longer, mu_base::specs::Prefixes::prefix_again))]
fn asked_and_left(asked: u128, left: u32, out: &mut Vec<u8>) -> Result<(), AllocError>
    ensures appended { OnOk result (out.new.items ≡ out.old.items ++ (codes " asked " ++ decimal asked ++ codes " left " ++ decimal left)) }
    ensures begins { OnErr result (IsPrefix out.old.items out.new.items) }
{
    wide_numbered(b" asked ", asked, out)?;
    numbered(b" left ", left, out)
}

// Appends that the heap is full. Where no memory is found a part of it may have been appended.
#[tactic(auto, using(mu_base::specs::Prefixes::prefix_self, mu_base::specs::Prefixes::prefix_longer, mu_base::specs::Prefixes::prefix_again))]
fn heap_full(thread: u32, asked: u128, left: u32, out: &mut Vec<u8>) -> Result<(), AllocError>
    ensures appended { OnOk result (out.new.items ≡ out.old.items ++ (codes "heap full t" ++ decimal thread ++ (codes " asked " ++ decimal asked ++ codes " left " ++ decimal left))) }
    ensures begins { OnErr result (IsPrefix out.old.items out.new.items) }
{
    numbered(b"heap full t", thread, out)?;
    asked_and_left(asked, left, out)
}

/// Appends an ending, without its line feed. Where no memory is found a part of it may have been appended.
#[tactic(auto, using(mu_base::specs::Prefixes::prefix_self, mu_base::specs::Prefixes::prefix_longer, mu_base::specs::Prefixes::prefix_again))]
pub fn ending_words(code: &Checked, ending: &Ending, out: &mut Vec<u8>) -> Result<(), AllocError>
    ensures appended { OnOk result (out.new.items ≡ out.old.items ++ ending_text code.now ending.now) }
    ensures begins { OnErr result (IsPrefix out.old.items out.new.items) }
{
    match ending {
        Ending::Done => out.extend_from_slice(b"done"),
        Ending::Stop => out.extend_from_slice(b"stop"),
        Ending::Undefined {
            case,
            thread,
            block,
            at,
            race,
        } => {
            undefined_case(code, *case, *thread, *block, *at, out)?;
            race_text(code, *race, out)
        }
        Ending::HeapFull {
            thread,
            asked,
            left,
        } => heap_full(*thread, *asked, *left, out),
        Ending::ThreadsFull { thread } => numbered(b"threads full t", *thread, out),
        Ending::AllWaiting { threads } => worded_threads(b"all waiting", threads.as_slice(), out),
        Ending::Budget { steps } => numbered(b"budget ", *steps, out),
    }
}

// Appends the line of an ending. Where no memory is found a part of it may have been appended.
#[tactic(auto, using(mu_base::specs::Prefixes::prefix_self, mu_base::specs::Prefixes::prefix_longer, mu_base::specs::Prefixes::prefix_again))]
fn whole_ending(code: &Checked, ending: &Ending, out: &mut Vec<u8>) -> Result<(), AllocError>
    ensures appended { OnOk result (out.new.items ≡ out.old.items ++ ending_text code.now ending.now ++ codes "\n") }
    ensures begins { OnErr result (IsPrefix out.old.items out.new.items) }
{
    ending_words(code, ending, out)?;
    out.extend_from_slice(b"\n")
}

/// Appends the line of an ending, its line feed included. It is refused only when out of memory, and then `out` is as it was.
pub fn ending_text(code: &Checked, ending: &Ending, out: &mut Vec<u8>) -> Result<(), AllocError>
    ensures appended { OnOk result (out.new.items ≡ out.old.items ++ ending_text code.now ending.now ++ codes "\n") }
    ensures stays { OnErr result (out.new.items ≡ out.old.items) }
{
    let before = out.len();
    let appended = whole_ending(code, ending, out);
    if appended.is_err() {
        out.truncate(before);
    }
    appended
}

/// The status of the program after an ending.
pub fn ending_status(ending: &Ending) -> Status
    ensures { result ≡ ending_status ending.now }
{
    match ending {
        Ending::Done => Status::Done,
        Ending::Stop => Status::Stop,
        Ending::Undefined { .. } => Status::Undefined,
        Ending::HeapFull { .. } => Status::HeapFull,
        Ending::ThreadsFull { .. } => Status::ThreadsFull,
        Ending::AllWaiting { .. } => Status::AllWaiting,
        Ending::Budget { .. } => Status::Budget,
    }
}
