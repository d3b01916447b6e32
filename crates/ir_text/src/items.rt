//! The items of a bundle, and the bundle.
ghost use Rattle.text_forms.specs.Reading.{read, whole};
ghost use Rattle.text_forms.specs.Answers.{Gives, GivesAll};
ghost use Rattle.ir_tree.specs.Items.{funcdef, item, bundle};

use crate::bodies::body;
use crate::definitions::{constant, funcdecl, funcsig, global_cell, typedef};
use crate::lists::{bracketed, global, local, too_many};
use ir_lex::Cursor;
use ir_tree::{Bundle, Funcdef, Item};
use std::alloc::Global;
use text_forms::{Listing, ReadError, Symbol, passes_limit};

/// How many items a bundle may have.
const ITEM_LIMIT: usize = 16384;

/// The directives of items.
const DIRECTIVES: [Symbol; 6] = [
    Symbol::DotTypedef,
    Symbol::DotFuncsig,
    Symbol::DotConst,
    Symbol::DotGlobal,
    Symbol::DotFuncdecl,
    Symbol::DotFuncdef,
];

/// `.funcdef G VERSION L < G > { block block* }`
#[tactic(auto, unfolding(ir_tree::specs::Items::funcdef))]
fn funcdef(cursor: &mut Cursor, alloc: Global) -> Result<Funcdef, ReadError>
    ensures { Gives result cursor.new (read funcdef cursor.old) }
{
    let place = cursor.mark(Symbol::DotFuncdef)?;
    let name = global(cursor, alloc)?;
    cursor.mark(Symbol::Version)?;
    let version = local(cursor, alloc)?;
    let signature = bracketed(cursor, alloc)?;
    let blocks = body(cursor, alloc)?;
    Ok(Funcdef {
        place,
        name,
        version,
        signature,
        blocks,
    })
}

/// Any item
#[tactic(auto, unfolding(ir_tree::specs::Items::item))]
fn item(cursor: &mut Cursor, alloc: Global) -> Result<Item, ReadError>
    ensures { Gives result cursor.new (read item cursor.old) }
{
    match cursor.symbol() {
        Symbol::DotTypedef => Ok(Item::Typedef(typedef(cursor, alloc)?)),
        Symbol::DotFuncsig => Ok(Item::Funcsig(funcsig(cursor, alloc)?)),
        Symbol::DotConst => Ok(Item::Const(constant(cursor, alloc)?)),
        Symbol::DotGlobal => Ok(Item::GlobalCell(global_cell(cursor, alloc)?)),
        Symbol::DotFuncdecl => Ok(Item::Funcdecl(funcdecl(cursor, alloc)?)),
        Symbol::DotFuncdef => Ok(Item::Funcdef(funcdef(cursor, alloc)?)),
        _ => Err(ReadError::Fault(cursor.refusal(&[Symbol::DotExpose]))),
    }
}

/// The items up to the end of the text.
pub fn bundle(cursor: &mut Cursor, alloc: Global) -> Result<Bundle, ReadError>
    ensures { GivesAll result (whole bundle cursor.old) }
{
    let mut items = Listing::new(alloc);
    'each: while !cursor.at(Symbol::End) {
        if passes_limit(items.len(), ITEM_LIMIT, cursor.at_any(&DIRECTIVES)) {
            return Err(ReadError::Fault(too_many(cursor)));
        }
        items.push(item(cursor, alloc)?)?;
    }
    Ok(items)
}
