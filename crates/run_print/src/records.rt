// Records.
ghost use Rattle.std.specs.Prelude.{◌≡◌, ◌++◌, OnOk, OnErr, codes, decimal};
ghost use Rattle.mu_base.specs.Files.{IsPrefix};
ghost use Rattle.run_texts.specs.EventTexts.{cell_text, place_text, values_text};
ghost use Rattle.run_texts.specs.Texts.{note_text};

use crate::names::spaced_place;
use crate::numbers::{numbered, worded_cell};
use crate::values::values_text;
use checked_code::Checked;
use mu_model::Note;
use mu_values::{CellId, Passed};
use std::alloc::AllocError;

/// Appends words, a number, and behind a space a place. Where no memory is found a part of it may have been appended.
#[tactic(auto, using(mu_base::specs::Prefixes::prefix_self, mu_base::specs::Prefixes::prefix_longer, mu_base::specs::Prefixes::prefix_again))]
pub fn placed(
    code: &Checked,
    words: &[u8],
    n: u32,
    block: u32,
    at: u32,
    out: &mut Vec<u8>,
) -> Result<(), AllocError>
    ensures appended { OnOk result (out.new.items ≡ out.old.items ++ (words.now ++ decimal n ++ codes " " ++ place_text code.now block at)) }
    ensures begins { OnErr result (IsPrefix out.old.items out.new.items) }
{
    numbered(words, n, out)?;
    spaced_place(code, block, at, out)
}

// Appends words, a number, and values each behind a space. Where no memory is found a part of it may have been appended.
#[tactic(auto, using(mu_base::specs::Prefixes::prefix_longer, mu_base::specs::Prefixes::prefix_again))]
fn valued(
    code: &Checked,
    words: &[u8],
    n: u32,
    values: &Passed,
    out: &mut Vec<u8>,
) -> Result<(), AllocError>
    ensures appended { OnOk result (out.new.items ≡ out.old.items ++ (words.now ++ decimal n ++ values_text code.now values.now)) }
    ensures begins { OnErr result (IsPrefix out.old.items out.new.items) }
{
    numbered(words, n, out)?;
    values_text(code, values, out)
}

/// A thread, and the instruction that it has come to.
#[derive(Clone, Copy)]
struct ThreadPlace {
    /// The number of the thread.
    thread: u32,
    /// The number of the block.
    block: u32,
    /// The number of the instruction in its block.
    at: u32,
}

// Appends words, a thread, its place and a number. Where no memory is found a part of it may have been appended.
#[tactic(auto, using(mu_base::specs::Prefixes::prefix_longer, mu_base::specs::Prefixes::prefix_again))]
fn counted_place(
    code: &Checked,
    words: &[u8],
    of: ThreadPlace,
    watchpoint: u32,
    out: &mut Vec<u8>,
) -> Result<(), AllocError>
    ensures appended { OnOk result (out.new.items ≡ out.old.items ++ (words.now ++ decimal of.thread ++ codes " " ++ place_text code.now of.block of.at ++ codes " " ++ decimal watchpoint)) }
    ensures begins { OnErr result (IsPrefix out.old.items out.new.items) }
{
    placed(code, words, of.thread, of.block, of.at, out)?;
    numbered(b" ", watchpoint, out)
}

// Appends the end of a wait. Where no memory is found a part of it may have been appended.
#[tactic(auto, using(mu_base::specs::Prefixes::prefix_self, mu_base::specs::Prefixes::prefix_longer, mu_base::specs::Prefixes::prefix_again))]
fn timed_out(thread: u32, cell: CellId, out: &mut Vec<u8>) -> Result<(), AllocError>
    ensures appended { OnOk result (out.new.items ≡ out.old.items ++ (codes "timed out t" ++ decimal thread ++ codes " " ++ cell_text cell)) }
    ensures begins { OnErr result (IsPrefix out.old.items out.new.items) }
{
    numbered(b"timed out t", thread, out)?;
    worded_cell(b" ", cell, out)
}

/// Appends a record, without its line feed. Where no memory is found a part of it may have been appended.
pub fn record_text(code: &Checked, note: &Note, out: &mut Vec<u8>) -> Result<(), AllocError>
    ensures appended { OnOk result (out.new.items ≡ out.old.items ++ note_text code.now note.now) }
    ensures begins { OnErr result (IsPrefix out.old.items out.new.items) }
{
    match note {
        Note::Returned { thread, values } => valued(code, b"returned t", *thread, values, out),
        Note::Exited { thread } => numbered(b"exited t", *thread, out),
        Note::Trap { thread, block, at } => placed(code, b"trap t", *thread, *block, *at, out),
        Note::Watchpoint {
            thread,
            block,
            at,
            watchpoint,
        } => {
            let of = ThreadPlace {
                thread: *thread,
                block: *block,
                at: *at,
            };
            counted_place(code, b"watchpoint t", of, *watchpoint, out)
        }
        Note::Frame { frame, block, at } => placed(code, b"frame ", *frame, *block, *at, out),
        Note::Kept { frame, values } => valued(code, b"kept ", *frame, values.get(), out),
        Note::TimedOut { thread, cell } => timed_out(*thread, *cell, out),
    }
}
