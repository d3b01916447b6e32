// The text of what a search found.
ghost use Rattle.std.specs.Prelude.{◌≡◌, ◌++◌, OnOk, IfOk, codes, decimal, flat_map, length};
ghost use Rattle.std.specs.BTreeMap.{IsOrdered};
ghost use Rattle.odometer.specs.ListedLaws.{text_cmp};
ghost use Rattle.search_texts.specs.Texts.{schedule_text, outcome_text, entries_text, is_complete, last_line};

use itoa::Buffer;
use odometer::Searched;
use std::alloc::{AllocError, Global};

// Appends a number.
fn number(n: u64, out: &mut Vec<u8>) -> Result<(), AllocError>
    ensures { OnOk result (out.new.items ≡ out.old.items ++ decimal n) }
{
    let mut buffer = Buffer::new();
    out.extend_from_slice(buffer.format(n).as_bytes())
}

// Appends the numbers of a schedule, each after a blank.
fn numbers(picks: &[u32], out: &mut Vec<u8>) -> Result<(), AllocError>
    ensures { OnOk result (out.new.items ≡ out.old.items ++ flat_map (λ p. codes " " ++ decimal p) picks.now) }
{
    for pick in picks {
        out.extend_from_slice(b" ")?;
        number(*pick as u64, out)?;
    }
    Ok(())
}

// Appends the line of a schedule.
fn schedule(picks: &[u32], out: &mut Vec<u8>) -> Result<(), AllocError>
    ensures { OnOk result (out.new.items ≡ out.old.items ++ schedule_text picks.now) }
{
    out.extend_from_slice(b"schedule")?;
    numbers(picks, out)?;
    out.extend_from_slice(b"\n")
}

// Appends an outcome with its number.
fn outcome(k: u64, text: &[u8], picks: &[u32], out: &mut Vec<u8>) -> Result<(), AllocError>
    ensures { OnOk result (out.new.items ≡ out.old.items ++ outcome_text k text.now picks.now) }
{
    out.extend_from_slice(b"outcome ")?;
    number(k, out)?;
    out.extend_from_slice(b"\n")?;
    out.extend_from_slice(text)?;
    schedule(picks, out)
}

/// Whether nothing is left out: no run is left after those that were made, and each of these came to something.
pub fn is_complete(left: bool, says: bool) -> bool
    ensures { result ≡ is_complete left says }
{
    !left && says
}

// Appends the last line.
fn last(n: u64, left: bool, says: bool, out: &mut Vec<u8>) -> Result<(), AllocError>
    ensures { OnOk result (out.new.items ≡ out.old.items ++ last_line n left says) }
{
    if is_complete(left, says) {
        out.extend_from_slice(b"complete ")?;
        number(n, out)?;
        return out.extend_from_slice(b"\n");
    }
    out.extend_from_slice(b"bounded ")?;
    number(n, out)?;
    if left {
        out.extend_from_slice(b" runs")?;
    }
    if !says {
        out.extend_from_slice(b" steps")?;
    }
    out.extend_from_slice(b"\n")
}

/// The text of what a search found, in the order of the outcomes' bytes, as the map has them, with these lines before the last one. It
/// fails only out of memory.
pub fn search_text(alloc: Global, searched: &Searched, lines: &[u8]) -> Result<Vec<u8>, AllocError>
    ensures ordered { IsOrdered text_cmp searched.now.found }
    ensures text { IfOk result (λ text. text.items ≡ entries_text 0 searched.now.found.entries ++ lines.now ++ last_line (length searched.now.found.entries) searched.now.left searched.now.says) }
{
    let mut out = Vec::new(alloc);
    let mut k = 0;
    for (text, picks) in searched.found.iter() {
        outcome(k, text, picks, &mut out)?;
        k += 1;
    }
    out.extend_from_slice(lines)?;
    last(k, searched.left, searched.says, &mut out)?;
    Ok(out)
}
