// Conditions from their texts.
ghost use Rattle.demands.specs.Demands.{Judges};
ghost use Rattle.conditions.specs.Texts.{condition_demands, conditions_in};

use crate::fault::{ConditionFault, ConditionKind};
use crate::judging::judge_tokens;
use crate::parts::conditions;
use crate::tree::Condition;
use ir_lex::Cursor;
use name_scopes::Scope;
use std::alloc::Global;
use text_forms::{Listing, ReadError};

/// Reads conditions. `names` are the names of the globals that outcomes show, each with its number there. The text may hold any bytes.
///
/// `At` is the first fault. `BadByte`, `BadName`, `NumberTooLarge` or `TooLong` stands where no token begins as it should, once a token
/// is looked for there; `Unexpected` at the first token, or at the text's end, with which no text of conditions goes on, at a number below
/// 0, and at one of 2^32 or more behind a thread; `Unknown` at a word that claims nothing where a condition begins, at one that is no
/// thread and no ending in a list (a word of bundles or of client scripts is `Unexpected`, but for `stop` in a list), and at a name that is
/// none of `names`. It takes time and memory for the text, and a look-up for each name.
pub fn read_conditions(
    alloc: Global,
    bytes: &[u8],
    names: &Scope<u32>,
) -> Result<Listing<Condition>, ConditionFault>
    ensures { Judges (condition_demands names.now bytes.now) (conditions_in names.now bytes.now) result }
{
    match conditions(&mut Cursor::new(bytes), alloc, names) {
        Ok(conditions) => {
            judge_tokens(names, bytes, None)?;
            Ok(conditions)
        }
        Err(ReadError::Memory) => Err(ConditionFault::Memory),
        Err(ReadError::Fault(fault)) => {
            judge_tokens(names, bytes, Some(fault.place))?;
            Err(ConditionFault::At {
                kind: ConditionKind::Text(fault.kind),
                place: fault.place,
            })
        }
    }
}
