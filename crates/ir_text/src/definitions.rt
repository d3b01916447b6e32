//! Items that define no function's body.
ghost use Rattle.text_forms.specs.Reading.{read};
ghost use Rattle.text_forms.specs.Answers.{Gives};
ghost use Rattle.ir_tree.specs.Items.{typedef, funcsig, constant, global_cell, funcdecl};

use crate::lists::{bracketed, global, global_list};
use crate::types::{literal, type_form};
use ir_lex::Cursor;
use ir_tree::{Const, Funcdecl, Funcsig, GlobalCell, Typedef};
use std::alloc::Global;
use text_forms::{ReadError, Symbol};

/// `.typedef G = type`
#[tactic(auto, unfolding(ir_tree::specs::Items::typedef))]
pub fn typedef(cursor: &mut Cursor, alloc: Global) -> Result<Typedef, ReadError>
    ensures { Gives result cursor.new (read typedef cursor.old) }
{
    let place = cursor.mark(Symbol::DotTypedef)?;
    let name = global(cursor, alloc)?;
    cursor.mark(Symbol::Equals)?;
    let form = type_form(cursor, alloc)?;
    Ok(Typedef { place, name, form })
}

/// `.funcsig G = ( G* ) -> ( G* )`
#[tactic(auto, unfolding(ir_tree::specs::Items::funcsig))]
pub fn funcsig(cursor: &mut Cursor, alloc: Global) -> Result<Funcsig, ReadError>
    ensures { Gives result cursor.new (read funcsig cursor.old) }
{
    let place = cursor.mark(Symbol::DotFuncsig)?;
    let name = global(cursor, alloc)?;
    cursor.mark(Symbol::Equals)?;
    let takes = global_list(cursor, alloc)?;
    cursor.mark(Symbol::Arrow)?;
    let gives = global_list(cursor, alloc)?;
    Ok(Funcsig {
        place,
        name,
        takes,
        gives,
    })
}

/// `.const G < G > = literal`
#[tactic(auto, unfolding(ir_tree::specs::Items::constant))]
pub fn constant(cursor: &mut Cursor, alloc: Global) -> Result<Const, ReadError>
    ensures { Gives result cursor.new (read constant cursor.old) }
{
    let place = cursor.mark(Symbol::DotConst)?;
    let name = global(cursor, alloc)?;
    let of_type = bracketed(cursor, alloc)?;
    cursor.mark(Symbol::Equals)?;
    let literal = literal(cursor, alloc)?;
    Ok(Const {
        place,
        name,
        of_type,
        literal,
    })
}

/// `.global G < G >`
#[tactic(auto, unfolding(ir_tree::specs::Items::global_cell))]
pub fn global_cell(cursor: &mut Cursor, alloc: Global) -> Result<GlobalCell, ReadError>
    ensures { Gives result cursor.new (read global_cell cursor.old) }
{
    let place = cursor.mark(Symbol::DotGlobal)?;
    let name = global(cursor, alloc)?;
    let of_type = bracketed(cursor, alloc)?;
    Ok(GlobalCell {
        place,
        name,
        of_type,
    })
}

/// `.funcdecl G < G >`
#[tactic(auto, unfolding(ir_tree::specs::Items::funcdecl))]
pub fn funcdecl(cursor: &mut Cursor, alloc: Global) -> Result<Funcdecl, ReadError>
    ensures { Gives result cursor.new (read funcdecl cursor.old) }
{
    let place = cursor.mark(Symbol::DotFuncdecl)?;
    let name = global(cursor, alloc)?;
    let signature = bracketed(cursor, alloc)?;
    Ok(Funcdecl {
        place,
        name,
        signature,
    })
}
