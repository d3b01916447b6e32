// The parts of the text that stand once for each number. Where no memory is found some of a part may have been appended.
ghost use Rattle.std.specs.Prelude.{◌≡◌, ◌++◌, ◌<◌, OnOk, codes, decimal};
ghost use Rattle.trial_text.specs.Trial.{cells_text, stores_text, flag_block, next_text, value_block, blocks_text};

use itoa::Buffer;
use std::alloc::AllocError;

// Appends words and a number behind them.
fn numbered(words: &[u8], n: u32, out: &mut Vec<u8>) -> Result<(), AllocError>
    ensures { OnOk result (out.new.items ≡ out.old.items ++ (words.now ++ decimal n)) }
{
    let mut buffer = Buffer::new();
    out.extend_from_slice(words)?;
    out.extend_from_slice(buffer.format(n).as_bytes())
}

/// Appends the value with number `i`, its cell and its flag.
pub fn cells_text(i: u32, out: &mut Vec<u8>) -> Result<(), AllocError>
    ensures { OnOk result (out.new.items ≡ out.old.items ++ cells_text i) }
{
    numbered(b".const @k", i, out)?;
    numbered(b" < @i64 > = ", i, out)?;
    numbered(b" .global @d", i, out)?;
    numbered(b" < @i64 > .global @f", i, out)?;
    out.extend_from_slice(b" < @i1 > ")
}

/// Appends the instructions that write the value with number `i` and set its flag.
pub fn stores_text(i: u32, out: &mut Vec<u8>) -> Result<(), AllocError>
    ensures { OnOk result (out.new.items ≡ out.old.items ++ stores_text i) }
{
    numbered(b"STORE NOT_ATOMIC < @i64 > @d", i, out)?;
    numbered(b" @k", i, out)?;
    numbered(b" STORE RELEASE < @i1 > @f", i, out)?;
    out.extend_from_slice(b" @on ")
}

// Appends the block that looks at the flag with number `i`.
fn flag_block(i: u32, out: &mut Vec<u8>) -> Result<(), AllocError>
    ensures { OnOk result (out.new.items ≡ out.old.items ++ flag_block i) }
{
    numbered(b"%a", i, out)?;
    numbered(b" ( ) : %x = LOAD ACQUIRE < @i1 > @f", i, out)?;
    numbered(b" BRANCH2 %x %b", i, out)?;
    out.extend_from_slice(b" ( ) %z ( ) ")
}

// Appends the name of the block behind that with number `i` of `n`.
fn next_text(n: u32, i: u32, out: &mut Vec<u8>) -> Result<(), AllocError>
    requires { i < n }
    ensures { OnOk result (out.new.items ≡ out.old.items ++ next_text n i) }
{
    let next = i + 1;
    if next == n {
        out.extend_from_slice(b"%z")
    } else {
        numbered(b"%a", next, out)
    }
}

// Appends the block that reads the value with number `i` of `n`.
fn value_block(n: u32, i: u32, out: &mut Vec<u8>) -> Result<(), AllocError>
    requires { i < n }
    ensures { OnOk result (out.new.items ≡ out.old.items ++ value_block n i) }
{
    numbered(b"%b", i, out)?;
    numbered(b" ( ) : %y = LOAD NOT_ATOMIC < @i64 > @d", i, out)?;
    out.extend_from_slice(b" BRANCH ")?;
    next_text(n, i, out)?;
    out.extend_from_slice(b" ( ) ")
}

/// Appends the two blocks for the flag and the value with number `i` of `n`.
pub fn blocks_text(n: u32, i: u32, out: &mut Vec<u8>) -> Result<(), AllocError>
    requires { i < n }
    ensures { OnOk result (out.new.items ≡ out.old.items ++ blocks_text n i) }
{
    flag_block(i, out)?;
    value_block(n, i, out)
}
