//! The bundle that a text spells.
ghost use Rattle.ir_text.specs.TextAnswers.{text_answer, Answer, Answers, IfAnswer, IsAnswer};

use crate::fault::{TextFault, refused};
use crate::items::bundle;
use ir_lex::Cursor;
use ir_tree::Bundle;
use std::alloc::Global;
use text_forms::ReadError;

/// What is read, as the answer to the text.
fn answer(alloc: Global, bytes: &[u8]) -> Result<Bundle, TextFault>
    ensures { Answers result (text_answer bytes.now) }
{
    match bundle(&mut Cursor::new(bytes), alloc) {
        Ok(items) => Ok(items),
        Err(ReadError::Memory) => Err(TextFault::Memory),
        Err(ReadError::Fault(fault)) => Err(refused(fault)),
    }
}

/// The bundle that a text spells, each name, number and mark with its place. The text may hold any bytes.
///
/// - `At` is the first fault. `BadByte`, `BadName`, `NumberTooLarge` or `TooLong` stands where no token begins as it should, once a
///   token is looked for there; `Unexpected` at the first token, or at the text's end, with which no bundle's text goes on;
///   `NotInProfile` at a word that belongs there and that the profile leaves out; `TooMany` at the first token of an item past 16,384,
///   of a block or an instruction past 4,096, of a case past 1,024, and of a member of one list past 256.
/// - `Memory` says that no memory was found for a name or a list. What was read is dropped.
///
/// Each token is read once, and compared with the words of the grammar. So the time is in proportion to the text, and so is the
/// memory that the bundle takes.
pub fn read_bundle(alloc: Global, bytes: &[u8]) -> Result<Bundle, TextFault>
    // What is computed of the text,
    ensures answer { Answers result (text_answer bytes.now) }
    // what it means in the words of the grammar and of the rules of tokens,
    ensures means { IfAnswer result (IsAnswer bytes.now) }
    // and that nothing else is an answer to the text.
    ensures only { (other : Answer) → IsAnswer bytes.now other → Answers result other }
{
    answer(alloc, bytes)
}
