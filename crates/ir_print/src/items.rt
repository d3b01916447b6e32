// Items and bundles.
ghost use Rattle.std.specs.Prelude.{◌≡◌, ◌++◌, OnOk, OnErr};
ghost use Rattle.ir_print.specs.Words.{text};
ghost use Rattle.ir_print.specs.Items.{typedef_words, funcsig_words, constant_words, global_cell_words, funcdecl_words, funcdef_words, item_words, bundle_text};

use crate::bodies::body;
use crate::lists::{bracketed, global_list};
use crate::spellings::spelling;
use crate::types::{literal, type_form};
use crate::words::{name, put};
use ir_tree::{Bundle, Const, Funcdecl, Funcdef, Funcsig, GlobalCell, Item, Typedef};
use std::alloc::AllocError;
use text_forms::Symbol;

#[tactic(auto, unfolding(crate::specs::Items::typedef_words))]
fn typedef(out: &mut Vec<u8>, space: &[u8], item: &Typedef) -> Result<(), AllocError>
    ensures { OnOk result (out.new.items ≡ out.old.items ++ text (typedef_words space.now item.now)) }
{
    put(out, space, spelling(Symbol::DotTypedef))?;
    name(out, b" ", &item.name)?;
    out.extend_from_slice(b" =")?;
    type_form(out, b" ", &item.form)?;
    Ok(())
}

#[tactic(auto, using(crate::specs::Lemmas::Texts::text_append), unfolding(crate::specs::Items::funcsig_words))]
fn funcsig(out: &mut Vec<u8>, space: &[u8], item: &Funcsig) -> Result<(), AllocError>
    ensures { OnOk result (out.new.items ≡ out.old.items ++ text (funcsig_words space.now item.now)) }
{
    put(out, space, spelling(Symbol::DotFuncsig))?;
    name(out, b" ", &item.name)?;
    out.extend_from_slice(b" =")?;
    global_list(out, b" ", &item.takes)?;
    out.extend_from_slice(b" ->")?;
    global_list(out, b" ", &item.gives)?;
    Ok(())
}

#[tactic(auto, using(crate::specs::Lemmas::Texts::text_append), unfolding(crate::specs::Items::constant_words))]
fn constant(out: &mut Vec<u8>, space: &[u8], item: &Const) -> Result<(), AllocError>
    ensures { OnOk result (out.new.items ≡ out.old.items ++ text (constant_words space.now item.now)) }
{
    put(out, space, spelling(Symbol::DotConst))?;
    name(out, b" ", &item.name)?;
    bracketed(out, b" ", &item.of_type)?;
    out.extend_from_slice(b" =")?;
    literal(out, b" ", &item.literal)?;
    Ok(())
}

#[tactic(auto, unfolding(crate::specs::Items::global_cell_words))]
fn global_cell(out: &mut Vec<u8>, space: &[u8], item: &GlobalCell) -> Result<(), AllocError>
    ensures { OnOk result (out.new.items ≡ out.old.items ++ text (global_cell_words space.now item.now)) }
{
    put(out, space, spelling(Symbol::DotGlobal))?;
    name(out, b" ", &item.name)?;
    bracketed(out, b" ", &item.of_type)?;
    Ok(())
}

#[tactic(auto, unfolding(crate::specs::Items::funcdecl_words))]
fn funcdecl(out: &mut Vec<u8>, space: &[u8], item: &Funcdecl) -> Result<(), AllocError>
    ensures { OnOk result (out.new.items ≡ out.old.items ++ text (funcdecl_words space.now item.now)) }
{
    put(out, space, spelling(Symbol::DotFuncdecl))?;
    name(out, b" ", &item.name)?;
    bracketed(out, b" ", &item.signature)?;
    Ok(())
}

#[tactic(auto, using(crate::specs::Lemmas::Texts::text_append), unfolding(crate::specs::Items::funcdef_words))]
fn funcdef(out: &mut Vec<u8>, space: &[u8], item: &Funcdef) -> Result<(), AllocError>
    ensures { OnOk result (out.new.items ≡ out.old.items ++ text (funcdef_words space.now item.now)) }
{
    put(out, space, spelling(Symbol::DotFuncdef))?;
    name(out, b" ", &item.name)?;
    put(out, b" ", spelling(Symbol::Version))?;
    name(out, b" ", &item.version)?;
    bracketed(out, b" ", &item.signature)?;
    body(out, item.blocks.as_slice())?;
    Ok(())
}

#[tactic(auto, unfolding(crate::specs::Items::item_words))]
fn item(out: &mut Vec<u8>, space: &[u8], item: &Item) -> Result<(), AllocError>
    ensures { OnOk result (out.new.items ≡ out.old.items ++ text (item_words space.now item.now)) }
{
    match item {
        Item::Typedef(inner) => typedef(out, space, inner)?,
        Item::Funcsig(inner) => funcsig(out, space, inner)?,
        Item::Const(inner) => constant(out, space, inner)?,
        Item::GlobalCell(inner) => global_cell(out, space, inner)?,
        Item::Funcdecl(inner) => funcdecl(out, space, inner)?,
        Item::Funcdef(inner) => funcdef(out, space, inner)?,
    }
    Ok(())
}

// Appends the items, each with a line feed behind it. Where no memory is found a part of them may have been appended.
fn items(out: &mut Vec<u8>, bundle: &Bundle) -> Result<(), AllocError>
    ensures { OnOk result (out.new.items ≡ out.old.items ++ bundle_text bundle.now) }
{
    for one in bundle.as_slice() {
        item(out, b"", one)?;
        out.push(b'\n')?;
    }
    Ok(())
}

/// Appends the canonical text of a bundle. It is refused only where it is out of memory, and then `out` is as it was: the text is made apart
/// first. It takes time in proportion to the text, and room for the text twice.
pub fn print_bundle(bundle: &Bundle, out: &mut Vec<u8>) -> Result<(), AllocError>
    ensures appended { OnOk result (out.new.items ≡ out.old.items ++ bundle_text bundle.now) }
    ensures stays { OnErr result (out.new.items ≡ out.old.items) }
{
    let mut text = Vec::new(*out.allocator());
    items(&mut text, bundle)?;
    out.extend_from_slice(text.as_slice())
}
