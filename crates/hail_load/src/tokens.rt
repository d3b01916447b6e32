//! What a script is made of: names, indexes, targets and sources that are no lists.
ghost use Rattle.std.specs.Prelude.{◌≡◌, [], ◌∷◌};
ghost use Rattle.text_forms.specs.declared.symbol.Symbol.TheVariants as symbols;
ghost use Rattle.text_forms.specs.Forms.{until};
ghost use Rattle.text_forms.specs.Reading.{read};
ghost use Rattle.text_forms.specs.Answers.{Gives};
ghost use Rattle.ir_tree.specs.Lists.{global, bracketed};
ghost use Rattle.hail_load.specs.Sources.{object, root, index, target, reference, plain};

use crate::tree::{Index, Piece, Root, Target};
use ir_lex::{Cursor, Name};
use std::alloc::Global;
use text_forms::{Listing, ReadError, Symbol};

/// The symbols of global names: the names of common instructions are names like any others.
pub const GLOBALS: [Symbol; 10] = [
    Symbol::Global,
    Symbol::UvmNewStack,
    Symbol::UvmKillStack,
    Symbol::UvmThreadExit,
    Symbol::UvmCurrentStack,
    Symbol::UvmSetThreadlocal,
    Symbol::UvmGetThreadlocal,
    Symbol::UvmFutexWait,
    Symbol::UvmFutexWake,
    Symbol::UvmFutexWaitTimeout,
];

/// O
#[tactic(auto, unfolding(crate::specs::Sources::object))]
pub fn object(cursor: &mut Cursor, alloc: Global) -> Result<Name, ReadError>
    ensures { Gives result cursor.new (read object cursor.old) }
{
    cursor.name(alloc, &[Symbol::Object])
}

/// G
#[tactic(auto, unfolding(ir_tree::specs::Lists::global))]
fn global(cursor: &mut Cursor, alloc: Global) -> Result<Name, ReadError>
    ensures { Gives result cursor.new (read global cursor.old) }
{
    cursor.name(alloc, &GLOBALS)
}

/// `< G >`
#[tactic(auto, unfolding(ir_tree::specs::Lists::bracketed))]
pub fn bracketed(cursor: &mut Cursor, alloc: Global) -> Result<Name, ReadError>
    ensures { Gives result cursor.new (read bracketed cursor.old) }
{
    cursor.mark(Symbol::Less)?;
    let name = global(cursor, alloc)?;
    cursor.mark(Symbol::Greater)?;
    Ok(name)
}

/// `O | G`
#[tactic(auto, unfolding(crate::specs::Sources::root))]
fn root(cursor: &mut Cursor, alloc: Global) -> Result<Root, ReadError>
    ensures { Gives result cursor.new (read root cursor.old) }
{
    if cursor.at(Symbol::Object) {
        Ok(Root::Object(object(cursor, alloc)?))
    } else {
        Ok(Root::Global(global(cursor, alloc)?))
    }
}

/// `[ N ]`
#[tactic(auto, unfolding(crate::specs::Sources::index))]
pub fn index(cursor: &mut Cursor) -> Result<Index, ReadError>
    ensures { Gives result cursor.new (read index cursor.old) }
{
    let place = cursor.mark(Symbol::SquareOpen)?;
    let number = cursor.numeral()?;
    cursor.mark(Symbol::SquareClose)?;
    Ok(Index { place, number })
}

/// The indexes up to `=`.
#[tactic(auto, using(ir_lex::specs::Lemmas::Cursors::one_goes_on))]
fn indexes(cursor: &mut Cursor, alloc: Global) -> Result<Listing<Index>, ReadError>
    ensures { Gives result cursor.new (read (until (symbols.Equals ∷ []) index) cursor.old) }
{
    let mut indexes = Listing::new(alloc);
    'each: while !cursor.at(Symbol::Equals) {
        indexes.push(index(cursor)?)?;
    }
    cursor.bump();
    Ok(indexes)
}

/// A target and the `=` behind it.
#[tactic(auto, unfolding(crate::specs::Sources::target))]
pub fn target(cursor: &mut Cursor, alloc: Global) -> Result<Target, ReadError>
    ensures { Gives result cursor.new (read target cursor.old) }
{
    let root = root(cursor, alloc)?;
    let indexes = indexes(cursor, alloc)?;
    Ok(Target { root, indexes })
}

/// `& O | & G`
#[tactic(auto, unfolding(crate::specs::Sources::reference))]
fn reference(cursor: &mut Cursor, alloc: Global) -> Result<Piece, ReadError>
    ensures { Gives result cursor.new (read reference cursor.old) }
{
    let place = cursor.mark(Symbol::Ampersand)?;
    let root = root(cursor, alloc)?;
    Ok(Piece::Reference { place, root })
}

/// A source that is no list.
#[tactic(auto, unfolding(crate::specs::Sources::plain))]
pub fn plain(cursor: &mut Cursor, alloc: Global) -> Result<Piece, ReadError>
    ensures { Gives result cursor.new (read plain cursor.old) }
{
    if cursor.at(Symbol::Number) {
        Ok(Piece::Number(cursor.numeral()?))
    } else if cursor.at(Symbol::Null) {
        let place = cursor.mark(Symbol::Null)?;
        Ok(Piece::Null { place })
    } else if cursor.at(Symbol::Object) {
        Ok(Piece::Object(object(cursor, alloc)?))
    } else if cursor.at(Symbol::Ampersand) {
        reference(cursor, alloc)
    } else {
        Ok(Piece::Global(global(cursor, alloc)?))
    }
}
