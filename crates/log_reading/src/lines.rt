// Event lines.
ghost use Rattle.std.specs.Prelude.{◌≡◌, ℕ, ◌+◌, ◌<◌, ◌^◌, true, length, IfOk};
ghost use Rattle.log_lines.specs.Lines.{kind_after, event_in};
ghost use Rattle.log_lines.specs.Texts.{is_printable, first_unprintable, begins_with_digit};
ghost use Rattle.log_lines.specs.declared.types.KindWord.TheVariants as words;
ghost use Rattle.mem_axioms.specs.Synchronizes.{makes_thread};
ghost use Rattle.mem_axioms.specs.Threads.{HasFewThreads};
ghost use Rattle.log_reading.specs.Inner.{ReadsKind, IsEvent};

use crate::fields::{Fields, LogFault};
use crate::names::Names;
use crate::values::value;
use log_lines::KindWord;
use mem_axioms::{Event, Kind, Mode};

/// Whether a line is an event line.
pub fn begins_with_digit(line: &[u8]) -> bool
    ensures { result ≡ begins_with_digit line.now }
{
    match line {
        [first, ..] => first.is_ascii_digit(),
        [] => false,
    }
}

fn is_printable(byte: u8) -> bool
    ensures { result ≡ is_printable byte }
{
    32 <= byte && byte <= 126
}

/// The byte offset of the first byte that is not printable, in a line that begins at that byte offset.
pub fn first_unprintable(at: usize, line: &[u8]) -> Option<usize>
    requires { at + length line.now < 2 ^ 64 }
    ensures { result ≡ first_unprintable at line.now }
{
    for (n, byte) in line.iter().enumerate() {
        if !is_printable(*byte) {
            return Some(at + n);
        }
    }
    None
}

// ---- what happened

fn access(names: &mut Names, mode: Mode, fields: &mut Fields<'_>) -> Result<Kind, LogFault>
    ensures kind { ReadsKind (kind_after fields.old.end names.old (words.Access mode)) fields.old fields.new names.new result }
    ensures few { IfOk result (λ k. (t : ℕ) → makes_thread t (record { thread = 0; kind = k }) ≡ true → t < 64) }
{
    let order = fields.access_order(mode)?;
    let cell = fields.cell()?;
    let position = fields.number()?;
    let field = fields.next()?;
    let judged = value(names, field.bytes)?;
    let value = field.judged(judged)?;
    Ok(Kind::Access {
        mode,
        cell,
        order,
        position,
        value,
    })
}

fn kind_after(names: &mut Names, word: KindWord, fields: &mut Fields<'_>) -> Result<Kind, LogFault>
    ensures kind { ReadsKind (kind_after fields.old.end names.old word) fields.old fields.new names.new result }
    ensures few { IfOk result (λ k. (t : ℕ) → makes_thread t (record { thread = 0; kind = k }) ≡ true → t < 64) }
{
    match word {
        KindWord::Access { mode } => access(names, mode, fields),
        KindWord::Fence => {
            let order = fields.fence_order()?;
            Ok(Kind::Fence { order })
        }
        KindWord::NewStack => {
            let stack = fields.stack()?;
            Ok(Kind::NewStack { stack })
        }
        KindWord::NewThread => {
            let child = fields.thread()?;
            Ok(Kind::NewThread { child })
        }
        KindWord::Leave => {
            let stack = fields.stack()?;
            Ok(Kind::Leave { stack })
        }
        KindWord::Enter => {
            let stack = fields.stack()?;
            Ok(Kind::Enter { stack })
        }
        KindWord::Wake => {
            let cell = fields.cell()?;
            let count = fields.number()?;
            Ok(Kind::Wake { cell, count })
        }
        KindWord::Woken => {
            let wake = fields.number()?;
            Ok(Kind::Woken { wake })
        }
    }
}

/// The event of a line with these fields, after `n` event lines. Its value may use names that were used before; a new one is kept.
#[tactic(auto, using(crate::proofs::Few::few_of_event))]
pub fn event(names: &mut Names, n: u32, fields: &mut Fields<'_>) -> Result<Event, LogFault>
    ensures event { IsEvent (event_in fields.old.end n names.old fields.old.fields) names.new result }
    ensures few { IfOk result HasFewThreads }
{
    fields.exactly(n)?;
    let thread = fields.thread()?;
    let word = fields.kind_word()?;
    let kind = kind_after(names, word, fields)?;
    fields.finish()?;
    Ok(Event { thread, kind })
}
