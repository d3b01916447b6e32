//! Instructions that make objects and find places in them. Each reader gives the place of the word, too.
ghost use Rattle.text_forms.specs.Reading.{read};
ghost use Rattle.text_forms.specs.Answers.{Gives};
ghost use Rattle.ir_tree.specs.Objects.{new_object, newhybrid, alloca, allocation, getiref, getfieldiref, getelemiref, shiftiref, getvarpartiref, addressing_form};

use crate::computing::bracketed_field;
use crate::lists::{bracketed, bracketed_pair, optional_exc, value};
use ir_lex::Cursor;
use ir_tree::{Addressing, Allocation};
use std::alloc::Global;
use text_forms::{ReadError, Symbol};

/// `NEW < T > exc?`
#[tactic(auto, unfolding(ir_tree::specs::Objects::new_object))]
fn new_object(cursor: &mut Cursor, alloc: Global) -> Result<(usize, Allocation), ReadError>
    ensures { Gives result cursor.new (read new_object cursor.old) }
{
    let place = cursor.mark(Symbol::New)?;
    let of_type = bracketed(cursor, alloc)?;
    let exception = optional_exc(cursor, alloc)?;
    Ok((place, Allocation::New { of_type, exception }))
}

/// `NEWHYBRID < H I > n exc?`
#[tactic(auto, unfolding(ir_tree::specs::Objects::newhybrid))]
fn newhybrid(cursor: &mut Cursor, alloc: Global) -> Result<(usize, Allocation), ReadError>
    ensures { Gives result cursor.new (read newhybrid cursor.old) }
{
    let place = cursor.mark(Symbol::Newhybrid)?;
    let (of_type, length_type) = bracketed_pair(cursor, alloc)?;
    let length = value(cursor, alloc)?;
    let exception = optional_exc(cursor, alloc)?;
    Ok((
        place,
        Allocation::Newhybrid {
            of_type,
            length_type,
            length,
            exception,
        },
    ))
}

/// `ALLOCA < T > exc?`
#[tactic(auto, unfolding(ir_tree::specs::Objects::alloca))]
fn alloca(cursor: &mut Cursor, alloc: Global) -> Result<(usize, Allocation), ReadError>
    ensures { Gives result cursor.new (read alloca cursor.old) }
{
    let place = cursor.mark(Symbol::Alloca)?;
    let of_type = bracketed(cursor, alloc)?;
    let exception = optional_exc(cursor, alloc)?;
    Ok((place, Allocation::Alloca { of_type, exception }))
}

/// Any of those that make an object
#[tactic(auto, unfolding(ir_tree::specs::Objects::allocation))]
pub fn allocation(cursor: &mut Cursor, alloc: Global) -> Result<(usize, Allocation), ReadError>
    ensures { Gives result cursor.new (read allocation cursor.old) }
{
    match cursor.symbol() {
        Symbol::New => new_object(cursor, alloc),
        Symbol::Newhybrid => newhybrid(cursor, alloc),
        _ => alloca(cursor, alloc),
    }
}

/// `GETIREF < T > r`
#[tactic(auto, unfolding(ir_tree::specs::Objects::getiref))]
fn getiref(cursor: &mut Cursor, alloc: Global) -> Result<(usize, Addressing), ReadError>
    ensures { Gives result cursor.new (read getiref cursor.old) }
{
    let place = cursor.mark(Symbol::Getiref)?;
    let of_type = bracketed(cursor, alloc)?;
    let reference = value(cursor, alloc)?;
    Ok((place, Addressing::Getiref { of_type, reference }))
}

/// `GETFIELDIREF < T n > p`
#[tactic(auto, unfolding(ir_tree::specs::Objects::getfieldiref))]
fn getfieldiref(cursor: &mut Cursor, alloc: Global) -> Result<(usize, Addressing), ReadError>
    ensures { Gives result cursor.new (read getfieldiref cursor.old) }
{
    let place = cursor.mark(Symbol::Getfieldiref)?;
    let (of_type, field) = bracketed_field(cursor, alloc)?;
    let location = value(cursor, alloc)?;
    Ok((
        place,
        Addressing::Getfieldiref {
            of_type,
            field,
            location,
        },
    ))
}

/// `GETELEMIREF < T I > p i`
#[tactic(auto, unfolding(ir_tree::specs::Objects::getelemiref))]
fn getelemiref(cursor: &mut Cursor, alloc: Global) -> Result<(usize, Addressing), ReadError>
    ensures { Gives result cursor.new (read getelemiref cursor.old) }
{
    let place = cursor.mark(Symbol::Getelemiref)?;
    let (of_type, index_type) = bracketed_pair(cursor, alloc)?;
    let location = value(cursor, alloc)?;
    let index = value(cursor, alloc)?;
    Ok((
        place,
        Addressing::Getelemiref {
            of_type,
            index_type,
            location,
            index,
        },
    ))
}

/// `SHIFTIREF < T I > p i`
#[tactic(auto, unfolding(ir_tree::specs::Objects::shiftiref))]
fn shiftiref(cursor: &mut Cursor, alloc: Global) -> Result<(usize, Addressing), ReadError>
    ensures { Gives result cursor.new (read shiftiref cursor.old) }
{
    let place = cursor.mark(Symbol::Shiftiref)?;
    let (of_type, offset_type) = bracketed_pair(cursor, alloc)?;
    let location = value(cursor, alloc)?;
    let offset = value(cursor, alloc)?;
    Ok((
        place,
        Addressing::Shiftiref {
            of_type,
            offset_type,
            location,
            offset,
        },
    ))
}

/// `GETVARPARTIREF < H > p`
#[tactic(auto, unfolding(ir_tree::specs::Objects::getvarpartiref))]
fn getvarpartiref(cursor: &mut Cursor, alloc: Global) -> Result<(usize, Addressing), ReadError>
    ensures { Gives result cursor.new (read getvarpartiref cursor.old) }
{
    let place = cursor.mark(Symbol::Getvarpartiref)?;
    let of_type = bracketed(cursor, alloc)?;
    let location = value(cursor, alloc)?;
    Ok((place, Addressing::Getvarpartiref { of_type, location }))
}

/// Any of those that find a place in an object
#[tactic(auto, unfolding(ir_tree::specs::Objects::addressing_form))]
pub fn addressing_form(cursor: &mut Cursor, alloc: Global) -> Result<(usize, Addressing), ReadError>
    ensures { Gives result cursor.new (read addressing_form cursor.old) }
{
    match cursor.symbol() {
        Symbol::Getiref => getiref(cursor, alloc),
        Symbol::Getfieldiref => getfieldiref(cursor, alloc),
        Symbol::Getelemiref => getelemiref(cursor, alloc),
        Symbol::Shiftiref => shiftiref(cursor, alloc),
        _ => getvarpartiref(cursor, alloc),
    }
}
