// Words of one token.
ghost use Rattle.std.specs.Prelude.{◌≡◌, ◌++◌, OnOk};
ghost use Rattle.ir_print.specs.Words.{text, number_text, global_words};

use ir_lex::{Name, Numeral};
use itoa::Buffer;
use std::alloc::AllocError;

/// Appends what stands before a word, and the word.
pub fn put(out: &mut Vec<u8>, space: &[u8], word: &[u8]) -> Result<(), AllocError>
    ensures { OnOk result (out.new.items ≡ out.old.items ++ (space.now ++ word.now)) }
{
    out.extend_from_slice(space)?;
    out.extend_from_slice(word)?;
    Ok(())
}

/// Appends a name with its sigil.
pub fn name(out: &mut Vec<u8>, space: &[u8], name: &Name) -> Result<(), AllocError>
    ensures { OnOk result (out.new.items ≡ out.old.items ++ text (global_words space.now name.now)) }
{
    out.extend_from_slice(space)?;
    out.extend_from_slice(name.text.as_slice())?;
    Ok(())
}

/// Appends a number: its decimal digits, behind `-` where it is negative.
pub fn number(out: &mut Vec<u8>, space: &[u8], number: &Numeral) -> Result<(), AllocError>
    ensures { OnOk result (out.new.items ≡ out.old.items ++ (space.now ++ number_text number.now.number)) }
{
    let mut buffer = Buffer::new();
    out.extend_from_slice(space)?;
    if number.number.negative {
        out.push(b'-')?;
    }
    out.extend_from_slice(buffer.format(number.number.magnitude).as_bytes())?;
    Ok(())
}
