//! The script that a text spells.
ghost use Rattle.std.specs.Prelude.{◌≡◌, Ok, Err};
ghost use Rattle.text_forms.specs.Reading.{whole};
ghost use Rattle.demands.specs.Demands.{Judges};
ghost use Rattle.ir_lex.specs.Walk.{tokens_from};
ghost use Rattle.hail_load.specs.Code.{code_of};
ghost use Rattle.hail_load.specs.Grammar.{hail};
ghost use Rattle.hail_load.specs.Texts.{hail_demands, hail_commands};

use crate::commands::hail;
use crate::fault::{HailFault, HailKind};
use crate::names::judge_tokens;
use crate::tree::Hail;
use bundle_names::Sort;
use checked_code::Checked;
use ir_lex::Cursor;
use name_scopes::Scope;
use std::alloc::Global;
use text_forms::{Fault, ReadError};

/// The script, where the grammar has one: the names are judged of all its tokens.
fn judge_all(
    alloc: Global,
    names: &Scope<Sort>,
    text: &[u8],
    commands: Hail,
) -> Result<Hail, HailFault>
    requires { whole hail (tokens_from text.now 0) ≡ Ok commands }
    ensures { Judges (hail_demands names.now text.now) (hail_commands text.now) result }
{
    judge_tokens(alloc, names, text, None)?;
    Ok(commands)
}

/// The first fault, where the grammar has one: that of a name before it, or that one.
fn judge_before(
    alloc: Global,
    names: &Scope<Sort>,
    text: &[u8],
    fault: Fault,
) -> Result<Hail, HailFault>
    requires { whole hail (tokens_from text.now 0) ≡ Err fault }
    ensures { Judges (hail_demands names.now text.now) (hail_commands text.now) result }
{
    judge_tokens(alloc, names, text, Some(fault.place))?;
    Err(HailFault::At {
        kind: HailKind::Text(fault.kind),
        place: fault.place,
    })
}

/// The script that a text spells among the global names of a bundle.
fn read(alloc: Global, names: &Scope<Sort>, text: &[u8]) -> Result<Hail, HailFault>
    ensures { Judges (hail_demands names.now text.now) (hail_commands text.now) result }
{
    match hail(&mut Cursor::new(text), alloc) {
        Ok(commands) => judge_all(alloc, names, text, commands),
        Err(ReadError::Memory) => Err(HailFault::Memory),
        Err(ReadError::Fault(fault)) => judge_before(alloc, names, text, fault),
    }
}

/// The script that a text spells, each name, number and mark with its place. The text may hold any bytes. It is judged token by token,
/// and the first fault is answered:
///
/// - `BadByte`, `BadName`, `NumberTooLarge` or `TooLong` where no token begins as it should, once a token is looked for there;
/// - `Unexpected` at the first token, or at the text's end, with which no script goes on: a brace inside 64 others is such a token, and
///   so is a negative number as an index or as the length of a hybrid;
/// - `Unknown` at a name that stands for nothing of the kind that belongs there: a type in `< >`, a global that a target begins with, a
///   constant, a global or a function that is a source, and an object that an earlier command made;
/// - `Duplicate` at the name of an object that was given before.
///
/// `Memory` says that no memory was found for a name or a list. Each token is looked at twice, and each name takes the time of one hash.
pub fn read_hail(alloc: Global, bytes: &[u8], code: &Checked) -> Result<Hail, HailFault>
    ensures { Judges (hail_demands (code_of code.now).names bytes.now) (hail_commands bytes.now) result }
{
    read(alloc, &code.tables().globals.names, bytes)
}
