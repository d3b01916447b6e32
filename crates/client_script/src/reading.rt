//! Scripts from their texts.
ghost use Rattle.std.specs.Prelude.{◌≡◌};
ghost use Rattle.text_forms.specs.Reading.{whole};
ghost use Rattle.text_forms.specs.Answers.{GivesAll};
ghost use Rattle.demands.specs.Demands.{Judges};
ghost use Rattle.ir_lex.specs.Walk.{tokens_from};
ghost use Rattle.client_script.specs.Grammar.{script};
ghost use Rattle.client_script.specs.Texts.{script_demands, script_entries};

use crate::entries::entries;
use crate::fault::{ScriptFault, ScriptKind};
use crate::judging::judge_tokens;
use crate::mentions::share_all;
use crate::script::Script;
use crate::tree::Entry;
use checked_code::Checked;
use ir_lex::Cursor;
use std::alloc::Global;
use text_forms::{Listing, ReadError};

/// The entries that a text spells.
fn entries_in(alloc: Global, text: &[u8], code: &Checked) -> Result<Listing<Entry>, ReadError>
    ensures { GivesAll result (whole (script code.now) (tokens_from text.now 0)) }
{
    let shared = share_all(alloc, text, code)?;
    entries(&mut Cursor::new(text), alloc, &shared)
}

/// Reads the script of a client: entries, each with actions, an edit or none, and a reply. Its names are those of a bundle. The text may hold any bytes;
/// an empty one is a script that is spent.
///
/// `At` is the first fault. `BadByte`, `BadName`, `NumberTooLarge` or `TooLong` stands where no token begins as it should, once a token
/// is looked for there; `Unexpected` at the first token, or at the text's end, with which no script's text goes on, and at a number that
/// is below 0, or 2^32 or more; `Unknown` at a name of no constant, global or function, and after `push` of no function. It takes time and
/// memory for the text, and for each constant that it mentions once, however often.
#[tactic(auto, unfolding(checked_code::specs::Entries::tables_of))]
pub fn read_script(alloc: Global, bytes: &[u8], code: &Checked) -> Result<Script, ScriptFault>
    ensures { Judges (script_demands code.now bytes.now) (script_entries code.now bytes.now) result }
{
    let names = &code.tables().globals.names;
    match entries_in(alloc, bytes, code) {
        Ok(entries) => {
            judge_tokens(names, bytes, None)?;
            Ok(Script::new(entries))
        }
        Err(ReadError::Memory) => Err(ScriptFault::Memory),
        Err(ReadError::Fault(fault)) => {
            judge_tokens(names, bytes, Some(fault.place))?;
            Err(ScriptFault::At {
                kind: ScriptKind::Text(fault.kind),
                place: fault.place,
            })
        }
    }
}
