// Numbers, and what stands before them.
ghost use Rattle.std.specs.Prelude.{◌≡◌, ◌++◌, OnOk, OnErr, codes, decimal};
ghost use Rattle.mu_base.specs.Files.{IsPrefix};
ghost use Rattle.run_texts.specs.EventTexts.{cell_text, thread_text, spaced};

use itoa::Buffer;
use mu_values::CellId;
use std::alloc::AllocError;

/// Appends a number.
pub fn number_text(n: u32, out: &mut Vec<u8>) -> Result<(), AllocError>
    ensures appended { OnOk result (out.new.items ≡ out.old.items ++ decimal n) }
    ensures stays { OnErr result (out.new.items ≡ out.old.items) }
{
    let mut buffer = Buffer::new();
    out.extend_from_slice(buffer.format(n).as_bytes())
}

/// Appends a number of up to 128 bits.
pub fn wide_text(n: u128, out: &mut Vec<u8>) -> Result<(), AllocError>
    ensures appended { OnOk result (out.new.items ≡ out.old.items ++ decimal n) }
    ensures stays { OnErr result (out.new.items ≡ out.old.items) }
{
    let mut buffer = Buffer::new();
    out.extend_from_slice(buffer.format(n).as_bytes())
}

/// Appends words, and a number behind them. Where no memory is found a part of it may have been appended.
#[tactic(auto, using(mu_base::specs::Prefixes::prefix_self, mu_base::specs::Prefixes::prefix_longer))]
pub fn numbered(words: &[u8], n: u32, out: &mut Vec<u8>) -> Result<(), AllocError>
    ensures appended { OnOk result (out.new.items ≡ out.old.items ++ (words.now ++ decimal n)) }
    ensures begins { OnErr result (IsPrefix out.old.items out.new.items) }
{
    out.extend_from_slice(words)?;
    number_text(n, out)
}

/// Appends words, and a number of up to 128 bits behind them. Where no memory is found a part of it may have been appended.
#[tactic(auto, using(mu_base::specs::Prefixes::prefix_self, mu_base::specs::Prefixes::prefix_longer))]
pub fn wide_numbered(words: &[u8], n: u128, out: &mut Vec<u8>) -> Result<(), AllocError>
    ensures appended { OnOk result (out.new.items ≡ out.old.items ++ (words.now ++ decimal n)) }
    ensures begins { OnErr result (IsPrefix out.old.items out.new.items) }
{
    out.extend_from_slice(words)?;
    wide_text(n, out)
}

/// Appends a cell. Where no memory is found a part of it may have been appended.
#[tactic(auto, using(mu_base::specs::Prefixes::prefix_longer, mu_base::specs::Prefixes::prefix_again))]
pub fn cell_text(cell: CellId, out: &mut Vec<u8>) -> Result<(), AllocError>
    ensures appended { OnOk result (out.new.items ≡ out.old.items ++ cell_text cell) }
    ensures begins { OnErr result (IsPrefix out.old.items out.new.items) }
{
    numbered(b"#", cell.object, out)?;
    numbered(b"+", cell.at, out)
}

/// Appends a cell behind words. Where no memory is found a part of it may have been appended.
#[tactic(auto, using(mu_base::specs::Prefixes::prefix_self, mu_base::specs::Prefixes::prefix_longer, mu_base::specs::Prefixes::prefix_again))]
pub fn worded_cell(words: &[u8], cell: CellId, out: &mut Vec<u8>) -> Result<(), AllocError>
    ensures appended { OnOk result (out.new.items ≡ out.old.items ++ (words.now ++ cell_text cell)) }
    ensures begins { OnErr result (IsPrefix out.old.items out.new.items) }
{
    out.extend_from_slice(words)?;
    cell_text(cell, out)
}

/// Appends a thread. Where no memory is found a part of it may have been appended.
pub fn thread_text(thread: u32, out: &mut Vec<u8>) -> Result<(), AllocError>
    ensures appended { OnOk result (out.new.items ≡ out.old.items ++ thread_text thread) }
    ensures begins { OnErr result (IsPrefix out.old.items out.new.items) }
{
    numbered(b"t", thread, out)
}

// Appends threads, each behind a space. Where no memory is found some of them may have been appended.
#[tactic(auto, using(mu_base::specs::Prefixes::prefix_self, mu_base::specs::Prefixes::prefix_longer, mu_base::specs::Prefixes::prefix_again, crate::proofs::Spaces::spaced_is))]
fn threads_text(threads: &[u32], out: &mut Vec<u8>) -> Result<(), AllocError>
    ensures appended { OnOk result (out.new.items ≡ out.old.items ++ spaced thread_text threads.now) }
    ensures begins { OnErr result (IsPrefix out.old.items out.new.items) }
{
    for thread in threads {
        numbered(b" t", *thread, out)?;
    }
    Ok(())
}

/// Appends words, and threads behind them, each behind a space. Where no memory is found a part of it may have been appended.
#[tactic(auto, using(mu_base::specs::Prefixes::prefix_self, mu_base::specs::Prefixes::prefix_longer, mu_base::specs::Prefixes::prefix_again))]
pub fn worded_threads(words: &[u8], threads: &[u32], out: &mut Vec<u8>) -> Result<(), AllocError>
    ensures appended { OnOk result (out.new.items ≡ out.old.items ++ (words.now ++ spaced thread_text threads.now)) }
    ensures begins { OnErr result (IsPrefix out.old.items out.new.items) }
{
    out.extend_from_slice(words)?;
    threads_text(threads, out)
}
