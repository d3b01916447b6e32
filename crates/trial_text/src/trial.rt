// The whole text.
ghost use Rattle.std.specs.Prelude.{◌≡◌, ◌++◌, OnOk, IfOk, codes};
ghost use Rattle.trial_text.specs.Trial.{for_each, types_text, cells_text, main_text, new_thread_text, stores_text, main_end, use_text, blocks_text, use_end, trial_text};

use crate::parts::{blocks_text, cells_text, stores_text};
use std::alloc::{AllocError, Global};

// Appends the values, the cells and the flags.
fn all_cells(n: u32, out: &mut Vec<u8>) -> Result<(), AllocError>
    ensures { OnOk result (out.new.items ≡ out.old.items ++ for_each n cells_text) }
{
    for i in 0..n {
        cells_text(i, out)?;
    }
    Ok(())
}

// Appends the instructions that write the values and set the flags.
fn all_stores(n: u32, out: &mut Vec<u8>) -> Result<(), AllocError>
    ensures { OnOk result (out.new.items ≡ out.old.items ++ for_each n stores_text) }
{
    for i in 0..n {
        stores_text(i, out)?;
    }
    Ok(())
}

// Appends the blocks that look at the flags and read the values.
fn all_blocks(n: u32, out: &mut Vec<u8>) -> Result<(), AllocError>
    ensures { OnOk result (out.new.items ≡ out.old.items ++ for_each n (blocks_text n)) }
{
    for i in 0..n {
        blocks_text(n, i, out)?;
    }
    Ok(())
}

// Appends the types, the constants and the cells.
fn declarations(n: u32, out: &mut Vec<u8>) -> Result<(), AllocError>
    ensures { OnOk result (out.new.items ≡ out.old.items ++ (types_text ++ for_each n cells_text)) }
{
    out.extend_from_slice(
        b".typedef @i1 = int < 1 > .typedef @i64 = int < 64 > .funcsig @m = ( ) -> ( ) .const @on < @i1 > = 1 ",
    )?;
    all_cells(n, out)
}

// Appends the head of the function that writes, and the start of the other thread.
fn opening(out: &mut Vec<u8>) -> Result<(), AllocError>
    ensures { OnOk result (out.new.items ≡ out.old.items ++ (main_text ++ new_thread_text)) }
{
    out.extend_from_slice(b".funcdef @main VERSION %v < @m > { %e ( ) : ")?;
    out.extend_from_slice(
        b"%s = COMMINST @uvm.new_stack < [ @m ] > ( @use ) %t = NEWTHREAD %s PASS_VALUES < > ( ) ",
    )
}

// Appends the function that writes.
fn writer(n: u32, out: &mut Vec<u8>) -> Result<(), AllocError>
    ensures { OnOk result (out.new.items ≡ out.old.items ++ (main_text ++ new_thread_text ++ for_each n stores_text ++ main_end)) }
{
    opening(out)?;
    all_stores(n, out)?;
    out.extend_from_slice(b"RET ( ) } ")
}

// Appends the function that reads.
fn reader(n: u32, out: &mut Vec<u8>) -> Result<(), AllocError>
    ensures { OnOk result (out.new.items ≡ out.old.items ++ (use_text ++ for_each n (blocks_text n) ++ use_end)) }
{
    out.extend_from_slice(b".funcdef @use VERSION %v < @m > { ")?;
    all_blocks(n, out)?;
    out.extend_from_slice(b"%z ( ) : RET ( ) } ")
}

/// The text of the made bundle with `n` pairs of a value and a flag. Its function `@main` starts a thread, then writes each value and sets
/// its flag; that thread looks at the flags in turn, reads the value of each that is set, and ends at the first that is not. Each token of
/// the text is followed by one space. It takes time and memory in proportion to the text. It is refused only where it is out of memory.
pub fn trial_text(alloc: Global, n: u32) -> Result<Vec<u8>, AllocError>
    ensures { IfOk result (λ text. text.items ≡ trial_text n) }
{
    let mut out = Vec::new(alloc);
    declarations(n, &mut out)?;
    writer(n, &mut out)?;
    reader(n, &mut out)?;
    Ok(out)
}
