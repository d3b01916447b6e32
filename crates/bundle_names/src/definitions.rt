// Definitions of items: global names are one space.
ghost use Rattle.std.specs.Prelude.{◌≡◌, ◌+◌, [], is_some, not, IfOk, OnOk};
ghost use Rattle.demands.specs.Demands.{demand, Judges, Meets, IsMemory};
ghost use Rattle.name_scopes.specs.Names.{found};
ghost use Rattle.bundle_names.specs.declared.fault.NameKind.TheVariants.{Duplicate};
ghost use Rattle.ir_tree.specs.declared.items.Item.TheVariants as items;
ghost use Rattle.bundle_names.specs.Globals.{with_function, with_item, no_globals, globals_of};
ghost use Rattle.bundle_names.specs.Definitions.{may_be_function, function_demands, item_demands, definition_demands};

use crate::blocks::{define, define_blocks};
use crate::fault::{NameFault, NameKind, fault_at};
use crate::globals::{Counts, Globals, Sort};
use ir_lex::Name;
use ir_tree::{Const, Funcdecl, Funcdef, Funcsig, GlobalCell, Item, Typedef};
use name_scopes::Scope;
use std::alloc::Global;

/// One more. Past 2^32 - 1 the answer is out of memory.
fn next(count: u32) -> Result<u32, NameFault>
    ensures ok { IfOk result (λ n. n ≡ count + 1) }
    ensures err { IsMemory result }
{
    match count.checked_add(1) {
        Some(count) => Ok(count),
        None => Err(NameFault::Memory),
    }
}

fn define_type(alloc: Global, globals: &mut Globals, item: &Typedef) -> Result<(), NameFault>
    ensures met { Meets (item_demands globals.old (items.Typedef item.now)) result }
    ensures ok { OnOk result (globals.new ≡ with_item globals.old (items.Typedef item.now)) }
{
    let number = globals.counts.written;
    define(alloc, &mut globals.names, &item.name, Sort::Written(number))?;
    globals.counts.written = next(number)?;
    Ok(())
}

fn define_signature(alloc: Global, globals: &mut Globals, item: &Funcsig) -> Result<(), NameFault>
    ensures met { Meets (item_demands globals.old (items.Funcsig item.now)) result }
    ensures ok { OnOk result (globals.new ≡ with_item globals.old (items.Funcsig item.now)) }
{
    let number = globals.counts.signatures;
    define(
        alloc,
        &mut globals.names,
        &item.name,
        Sort::Signature(number),
    )?;
    globals.counts.signatures = next(number)?;
    Ok(())
}

fn define_constant(alloc: Global, globals: &mut Globals, item: &Const) -> Result<(), NameFault>
    ensures met { Meets (item_demands globals.old (items.Const item.now)) result }
    ensures ok { OnOk result (globals.new ≡ with_item globals.old (items.Const item.now)) }
{
    let number = globals.counts.constants;
    define(
        alloc,
        &mut globals.names,
        &item.name,
        Sort::Constant(number),
    )?;
    globals.counts.constants = next(number)?;
    Ok(())
}

fn define_global_cell(
    alloc: Global,
    globals: &mut Globals,
    item: &GlobalCell,
) -> Result<(), NameFault>
    ensures met { Meets (item_demands globals.old (items.GlobalCell item.now)) result }
    ensures ok { OnOk result (globals.new ≡ with_item globals.old (items.GlobalCell item.now)) }
{
    let number = globals.counts.global_cells;
    define(
        alloc,
        &mut globals.names,
        &item.name,
        Sort::GlobalCell(number),
    )?;
    globals.counts.global_cells = next(number)?;
    Ok(())
}

/// Whether the name is new; else it has to be that of a function.
fn is_new_function(names: &Scope<Sort>, name: &Name) -> Result<bool, NameFault>
    ensures met { Meets (demand name.now.place Duplicate (may_be_function (found names.now name.now.text))) result }
    ensures ok { IfOk result (λ new. new ≡ not (is_some (found names.now name.now.text))) }
{
    match names.find(name.text.as_slice()) {
        None => Ok(true),
        Some(Sort::Function(_)) => Ok(false),
        Some(_) => Err(fault_at(NameKind::Duplicate, name)),
    }
}

/// The name of a function, which is counted where it comes first.
fn name_function(alloc: Global, globals: &mut Globals, name: &Name) -> Result<(), NameFault>
    ensures met { Meets (function_demands globals.old name.now) result }
    ensures ok { OnOk result (globals.new ≡ with_function globals.old name.now) }
{
    let new = is_new_function(&globals.names, name)?;
    let number = globals.counts.functions;
    globals
        .names
        .define(alloc, name.text.as_slice(), Sort::Function(number))?;
    if new {
        globals.counts.functions = next(number)?;
    }
    Ok(())
}

fn declare_function(alloc: Global, globals: &mut Globals, item: &Funcdecl) -> Result<(), NameFault>
    ensures met { Meets (item_demands globals.old (items.Funcdecl item.now)) result }
    ensures ok { OnOk result (globals.new ≡ with_item globals.old (items.Funcdecl item.now)) }
{
    name_function(alloc, globals, &item.name)?;
    let number = globals.counts.declarations;
    define(alloc, &mut globals.declared, &item.name, number)?;
    globals.counts.declarations = next(number)?;
    Ok(())
}

fn define_function(alloc: Global, globals: &mut Globals, item: &Funcdef) -> Result<(), NameFault>
    ensures met { Meets (item_demands globals.old (items.Funcdef item.now)) result }
    ensures ok { OnOk result (globals.new ≡ with_item globals.old (items.Funcdef item.now)) }
{
    name_function(alloc, globals, &item.name)?;
    let number = globals.counts.definitions;
    define(alloc, &mut globals.defined, &item.name, number)?;
    globals.counts.definitions = next(number)?;
    define_blocks(alloc, item.blocks.as_slice())
}

fn define_item(alloc: Global, globals: &mut Globals, item: &Item) -> Result<(), NameFault>
    ensures met { Meets (item_demands globals.old item.now) result }
    ensures ok { OnOk result (globals.new ≡ with_item globals.old item.now) }
{
    match item {
        Item::Typedef(item) => define_type(alloc, globals, item),
        Item::Funcsig(item) => define_signature(alloc, globals, item),
        Item::Const(item) => define_constant(alloc, globals, item),
        Item::GlobalCell(item) => define_global_cell(alloc, globals, item),
        Item::Funcdecl(item) => declare_function(alloc, globals, item),
        Item::Funcdef(item) => define_function(alloc, globals, item),
    }
}

fn no_names(alloc: Global) -> Globals
    ensures { result ≡ no_globals }
{
    Globals {
        names: Scope::new(alloc),
        declared: Scope::new(alloc),
        defined: Scope::new(alloc),
        counts: Counts {
            written: 0,
            signatures: 0,
            constants: 0,
            global_cells: 0,
            functions: 0,
            declarations: 0,
            definitions: 0,
        },
    }
}

/// The global names of items, which are defined once, as are the names in each item.
pub fn define_items(alloc: Global, items: &[Item]) -> Result<Globals, NameFault>
    ensures { Judges (definition_demands items.now) (globals_of items.now) result }
{
    let mut globals = no_names(alloc);
    let mut left = items;
    'each: while let [first, more @ ..] = left {
        define_item(alloc, &mut globals, first)?;
        left = more;
    }
    Ok(globals)
}
