//! The entries of a script.
ghost use Rattle.text_forms.specs.Reading.{read, whole};
ghost use Rattle.text_forms.specs.Answers.{Gives, GivesAll};
ghost use Rattle.client_script.specs.Grammar.{inside, entry, script};

use crate::mentions::Shared;
use crate::parts::{action, ending};
use crate::tree::Entry;
use ir_lex::Cursor;
use std::alloc::Global;
use text_forms::{Listing, ReadError, Symbol};

/// The words that edits and replies begin with.
const ENDINGS: [Symbol; 7] = [
    Symbol::Pop,
    Symbol::Push,
    Symbol::Pass,
    Symbol::ThrowReply,
    Symbol::Rebind,
    Symbol::Exit,
    Symbol::Stop,
];

/// `action* edit? reply`
fn inside(cursor: &mut Cursor, alloc: Global, code: &Shared) -> Result<Entry, ReadError>
    ensures { Gives result cursor.new (read (inside code.now) cursor.old) }
{
    let mut actions = Listing::new(alloc);
    'each: while !cursor.at_any(&ENDINGS) {
        actions.push(action(cursor)?)?;
    }
    let (edit, reply) = ending(cursor, alloc, code)?;
    Ok(Entry {
        actions,
        edit,
        reply,
    })
}

/// `{ action* edit? reply }`
#[tactic(auto, unfolding(crate::specs::Grammar::entry))]
fn entry(cursor: &mut Cursor, alloc: Global, code: &Shared) -> Result<Entry, ReadError>
    ensures { Gives result cursor.new (read (entry code.now) cursor.old) }
{
    cursor.mark(Symbol::BraceOpen)?;
    let entry = inside(cursor, alloc, code)?;
    cursor.mark(Symbol::BraceClose)?;
    Ok(entry)
}

/// The entries up to the end of the text.
pub fn entries(
    cursor: &mut Cursor,
    alloc: Global,
    code: &Shared,
) -> Result<Listing<Entry>, ReadError>
    ensures { GivesAll result (whole (script code.now) cursor.old) }
{
    let mut entries = Listing::new(alloc);
    'each: while !cursor.at(Symbol::End) {
        entries.push(entry(cursor, alloc, code)?)?;
    }
    Ok(entries)
}
