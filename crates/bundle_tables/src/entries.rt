// What the items of a bundle say, each sort of item by number.
ghost use Rattle.std.specs.Prelude.{◌≡◌, List, ◌∷◌, length, slice_get, option_and_then, IfOk};
ghost use Rattle.name_scopes.specs.Names.{found};
ghost use Rattle.check_tables.specs.Types.{iref_in};
ghost use Rattle.check_tables.specs.Lookups.{written_number, or_zero};
ghost use Rattle.ir_tree.specs.declared.items.Item.{Item};
ghost use Rattle.checked_code.specs.Graph.{table_of};
ghost use Rattle.bundle_tables.specs.Inner.{entered};
ghost use Rattle.checked_code.specs.Entries.{noted_type, noted_types, signature_entry, signature_entries, constant_entries, global_entries, noted_signature, declared_signatures, defined_signatures, is_function, declared_entry, function_entries, tables_of};

use crate::numbers::{or_zero, signature_id, signature_number, written_number};
use bundle_names::{Globals, Sort};
use check_tables::{Signature, Tables, TypeTable};
use ir_lex::Name;
use ir_tree::{Funcdecl, Funcsig, Item};
use std::alloc::{AllocError, Global};
use text_forms::Listing;

/// The class of the type with this name.
fn noted_type(types: &TypeTable, globals: &Globals, name: &Name) -> u32
    ensures { result ≡ noted_type types.now globals.now name.now }
{
    match written_number(globals, name) {
        Some(t) => or_zero(types.class(t)),
        None => 0,
    }
}

fn noted_types(
    alloc: Global,
    types: &TypeTable,
    globals: &Globals,
    names: &[Name],
) -> Result<Listing<u32>, AllocError>
    ensures { IfOk result (λ noted. noted ≡ noted_types types.now globals.now names.now) }
{
    let mut noted = Listing::new(alloc);
    let mut left = names;
    'each: while let [first, more @ ..] = left {
        noted.push(noted_type(types, globals, first))?;
        left = more;
    }
    Ok(noted)
}

fn signature_entry(
    alloc: Global,
    types: &TypeTable,
    globals: &Globals,
    item: &Funcsig,
) -> Result<Signature, AllocError>
    ensures { IfOk result (λ entry. entry ≡ signature_entry types.now globals.now item.now) }
{
    let id = signature_id(globals, &item.name)?;
    Ok(Signature {
        class: or_zero(types.class(id)),
        funcref: or_zero(types.funcref_to(id)),
        takes: noted_types(alloc, types, globals, item.takes.as_slice())?,
        gives: noted_types(alloc, types, globals, item.gives.as_slice())?,
    })
}

fn signature_entries(
    alloc: Global,
    types: &TypeTable,
    globals: &Globals,
    items: &[Item],
) -> Result<Listing<Signature>, AllocError>
    ensures { IfOk result (λ entries. entries ≡ signature_entries types.now globals.now items.now) }
{
    let mut entries = Listing::new(alloc);
    let mut left = items;
    'each: while let [first, more @ ..] = left {
        if let Item::Funcsig(item) = first {
            entries.push(signature_entry(alloc, types, globals, item)?)?;
        }
        left = more;
    }
    Ok(entries)
}

fn constant_entries(
    alloc: Global,
    types: &TypeTable,
    globals: &Globals,
    items: &[Item],
) -> Result<Listing<u32>, AllocError>
    ensures { IfOk result (λ entries. entries ≡ constant_entries types.now globals.now items.now) }
{
    let mut entries = Listing::new(alloc);
    let mut left = items;
    'each: while let [first, more @ ..] = left {
        if let Item::Const(item) = first {
            entries.push(noted_type(types, globals, &item.of_type))?;
        }
        left = more;
    }
    Ok(entries)
}

/// The class of the references to places of the type with this name.
fn noted_place(types: &TypeTable, globals: &Globals, name: &Name) -> u32
    ensures { result ≡ or_zero (iref_in types.now (written_number (found globals.now.names name.now.text))) }
{
    match written_number(globals, name) {
        Some(t) => or_zero(types.iref_to(t)),
        None => 0,
    }
}

fn global_entries(
    alloc: Global,
    types: &TypeTable,
    globals: &Globals,
    items: &[Item],
) -> Result<Listing<u32>, AllocError>
    ensures { IfOk result (λ entries. entries ≡ global_entries types.now globals.now items.now) }
{
    let mut entries = Listing::new(alloc);
    let mut left = items;
    'each: while let [first, more @ ..] = left {
        if let Item::GlobalCell(item) = first {
            entries.push(noted_place(types, globals, &item.of_type))?;
        }
        left = more;
    }
    Ok(entries)
}

/// The number of the signature with this name.
fn noted_signature(globals: &Globals, name: &Name) -> u32
    ensures { result ≡ noted_signature globals.now name.now }
{
    or_zero(signature_number(globals, name))
}

fn declared_signatures(
    alloc: Global,
    globals: &Globals,
    items: &[Item],
) -> Result<Listing<u32>, AllocError>
    ensures { IfOk result (λ signatures. signatures ≡ declared_signatures globals.now items.now) }
{
    let mut signatures = Listing::new(alloc);
    let mut left = items;
    'each: while let [first, more @ ..] = left {
        if let Item::Funcdecl(item) = first {
            signatures.push(noted_signature(globals, &item.signature))?;
        }
        left = more;
    }
    Ok(signatures)
}

fn defined_signatures(
    alloc: Global,
    globals: &Globals,
    items: &[Item],
) -> Result<Listing<u32>, AllocError>
    ensures { IfOk result (λ signatures. signatures ≡ defined_signatures globals.now items.now) }
{
    let mut signatures = Listing::new(alloc);
    let mut left = items;
    'each: while let [first, more @ ..] = left {
        if let Item::Funcdef(item) = first {
            signatures.push(noted_signature(globals, &item.signature))?;
        }
        left = more;
    }
    Ok(signatures)
}

/// Whether the name is that of the function with this number.
fn is_function(globals: &Globals, name: &Name, number: usize) -> bool
    ensures { result ≡ is_function (found globals.now.names name.now.text) number }
{
    match globals.names.find(name.text.as_slice()) {
        Some(Sort::Function(n)) => *n as usize == number,
        _ => false,
    }
}

/// The signature of the definition of the function with this name, where it has one.
fn definition_at(globals: &Globals, defined: &[u32], name: &Name) -> Option<u32>
    ensures { result ≡ option_and_then (slice_get defined.now) (found globals.now.defined name.now.text) }
{
    match globals.defined.find(name.text.as_slice()) {
        Some(n) => defined.get(*n as usize).copied(),
        None => None,
    }
}

fn declared_entry(globals: &Globals, defined: &[u32], item: &Funcdecl) -> u32
    ensures { result ≡ declared_entry globals.now defined.now item.now }
{
    match definition_at(globals, defined, &item.name) {
        Some(signature) => signature,
        None => noted_signature(globals, &item.signature),
    }
}

/// The signature of the function with this number, where the item is the first with its name.
fn function_entry(globals: &Globals, defined: &[u32], number: usize, item: &Item) -> Option<u32>
    ensures { (items : List Item) → function_entries globals.now defined.now number (item.now ∷ items) ≡ entered result globals.now defined.now number items }
{
    match item {
        Item::Funcdecl(item) if is_function(globals, &item.name, number) => Some(declared_entry(
            globals, defined, item,
        )),
        Item::Funcdef(item) if is_function(globals, &item.name, number) => Some(noted_signature(
            globals,
            &item.signature,
        )),
        _ => None,
    }
}

fn function_entries(
    alloc: Global,
    globals: &Globals,
    defined: &[u32],
    items: &[Item],
) -> Result<Listing<u32>, AllocError>
    ensures { IfOk result (λ entries. entries ≡ function_entries globals.now defined.now 0 items.now) }
{
    let mut entries = Listing::new(alloc);
    let mut left = items;
    'each: while let [first, more @ ..] = left {
        if let Some(entry) = function_entry(globals, defined, entries.len(), first) {
            entries.push(entry)?;
        }
        left = more;
    }
    Ok(entries)
}

/// What the items say, by number, where their types have this table.
#[tactic(auto, unfolding(checked_code::specs::Entries::tables_of))]
pub fn entries(
    alloc: Global,
    types: TypeTable,
    globals: Globals,
    items: &[Item],
) -> Result<Tables, AllocError>
    requires { types ≡ table_of globals items.now }
    ensures made { IfOk result (λ tables. tables ≡ tables_of globals items.now) }
    ensures types { IfOk result (λ tables. tables.types ≡ types) }
    ensures globals { IfOk result (λ tables. tables.globals ≡ globals) }
{
    let signatures = signature_entries(alloc, &types, &globals, items)?;
    let constants = constant_entries(alloc, &types, &globals, items)?;
    let global_cells = global_entries(alloc, &types, &globals, items)?;
    let defined = defined_signatures(alloc, &globals, items)?;
    let functions = function_entries(alloc, &globals, defined.as_slice(), items)?;
    let declarations = declared_signatures(alloc, &globals, items)?;
    Ok(Tables {
        types,
        globals,
        signatures,
        constants,
        global_cells,
        functions,
        declarations,
    })
}
