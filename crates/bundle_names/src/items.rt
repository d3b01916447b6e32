// Names in items.
ghost use Rattle.demands.specs.Demands.{Meets};
ghost use Rattle.bundle_names.specs.ItemUses.{form_use, literal_use, item_use, item_uses};

use crate::bodies::use_in_blocks;
use crate::fault::NameFault;
use crate::globals::Sort;
use crate::uses::{use_constants, use_signature, use_type, use_types};
use ir_tree::{Item, Literal, TypeForm};
use name_scopes::Scope;
use std::alloc::Global;

fn use_in_form(globals: &Scope<Sort>, form: &TypeForm) -> Result<(), NameFault>
    ensures { Meets (form_use globals.now form.now) result }
{
    match form {
        TypeForm::Int { .. } | TypeForm::Void | TypeForm::Stackref | TypeForm::Threadref => Ok(()),
        TypeForm::Struct { fields } => use_types(globals, fields.as_slice()),
        TypeForm::Array { element, .. } => use_type(globals, element),
        TypeForm::Hybrid { fixed, element } => {
            use_types(globals, fixed.as_slice())?;
            use_type(globals, element)
        }
        TypeForm::Ref { of_type } => use_type(globals, of_type),
        TypeForm::Iref { of_type } => use_type(globals, of_type),
        TypeForm::Funcref { signature } => use_signature(globals, signature),
    }
}

fn use_in_literal(globals: &Scope<Sort>, literal: &Literal) -> Result<(), NameFault>
    ensures { Meets (literal_use globals.now literal.now) result }
{
    match literal {
        Literal::Number(_) | Literal::Null { .. } => Ok(()),
        Literal::Members { constants, .. } => use_constants(globals, constants.as_slice()),
    }
}

fn use_in_item(alloc: Global, globals: &Scope<Sort>, item: &Item) -> Result<(), NameFault>
    ensures { Meets (item_use globals.now item.now) result }
{
    match item {
        Item::Typedef(item) => use_in_form(globals, &item.form),
        Item::Funcsig(item) => {
            use_types(globals, item.takes.as_slice())?;
            use_types(globals, item.gives.as_slice())
        }
        Item::Const(item) => {
            use_type(globals, &item.of_type)?;
            use_in_literal(globals, &item.literal)
        }
        Item::GlobalCell(item) => use_type(globals, &item.of_type),
        Item::Funcdecl(item) => use_signature(globals, &item.signature),
        Item::Funcdef(item) => {
            use_signature(globals, &item.signature)?;
            use_in_blocks(alloc, globals, item.blocks.as_slice())
        }
    }
}

/// The names in items.
pub fn use_in_items(alloc: Global, globals: &Scope<Sort>, items: &[Item]) -> Result<(), NameFault>
    ensures { Meets (item_uses globals.now items.now) result }
{
    let mut left = items;
    'each: while let [first, more @ ..] = left {
        use_in_item(alloc, globals, first)?;
        left = more;
    }
    Ok(())
}
