// The functions of a bundle by number.
ghost use Rattle.std.specs.Prelude.{◌≡◌, ◌+◌, ◌^◌, ◌<◌, length, slice_get, option_copied, IfOk};
ghost use Rattle.demands.specs.Demands.{IsMemory};
ghost use Rattle.name_scopes.specs.Names.{found};
ghost use Rattle.check_tables.specs.Lookups.{signature_in, noted_signature};
ghost use Rattle.checked_code.specs.Entries.{is_function};
ghost use Rattle.checked_code.specs.Answers.{global_classes};
ghost use Rattle.checked_code.specs.Functions.{first_blocks, first_of, function_named, functions_from, name_of_function, function_in};

use bundle_names::Sort;
use check_tables::{CheckFault, Tables};
use checked_code::Function;
use ir_lex::Name;
use ir_tree::{Block, Item};
use std::alloc::{AllocError, Global};
use text_forms::Listing;

/// The number of the block behind these, of which the first has a number. Want of memory is answered where it does not fit.
pub fn behind(first: u32, blocks: &[Block]) -> Result<u32, CheckFault>
    ensures ok { IfOk result (λ n. n ≡ first + length blocks.now) }
    ensures err { IsMemory result }
{
    let Ok(many) = u32::try_from(blocks.len()) else {
        return Err(CheckFault::Memory);
    };
    match first.checked_add(many) {
        Some(next) => Ok(next),
        None => Err(CheckFault::Memory),
    }
}

/// The next number. Want of memory is answered where it does not fit.
pub fn next(number: u32) -> Result<u32, CheckFault>
    ensures ok { IfOk result (λ n. n ≡ number + 1) }
    ensures err { IsMemory result }
{
    match number.checked_add(1) {
        Some(next) => Ok(next),
        None => Err(CheckFault::Memory),
    }
}

/// The first block of each definition.
pub fn first_of_each(alloc: Global, items: &[Item]) -> Result<Listing<u32>, CheckFault>
    ensures ok { IfOk result (λ firsts. firsts ≡ first_blocks 0 items.now) }
    ensures err { IsMemory result }
{
    let mut firsts = Listing::new(alloc);
    let mut next = 0u32;
    let mut left = items;
    'each: while let [item, more @ ..] = left {
        if let Item::Funcdef(function) = item {
            firsts.push(next)?;
            next = behind(next, function.blocks.as_slice())?;
        }
        left = more;
    }
    Ok(firsts)
}

/// Whether the name is that of the function with this number.
fn is_numbered(tables: &Tables, name: &Name, number: u32) -> bool
    ensures { result ≡ is_function (found tables.now.globals.names name.now.text) number }
{
    match tables.globals.names.find(name.text.as_slice()) {
        Some(Sort::Function(n)) => *n == number,
        _ => false,
    }
}

/// The class of the signature of a function.
fn class_of(tables: &Tables, number: u32) -> u32
    ensures { result ≡ noted_signature (signature_in tables.now (slice_get tables.now.functions number)) }
{
    match tables.functions.as_slice().get(number as usize) {
        Some(s) => match tables.signatures.as_slice().get(*s as usize) {
            Some(signature) => signature.class,
            None => 0,
        },
        None => 0,
    }
}

/// The first block of the function with this name, where it is defined.
fn first_block(tables: &Tables, firsts: &[u32], name: &Name) -> Option<u32>
    ensures { result ≡ first_of firsts.now (found tables.now.globals.defined name.now.text) }
{
    match tables.globals.defined.find(name.text.as_slice()) {
        Some(n) => firsts.get(*n as usize).copied(),
        None => None,
    }
}

fn named(tables: &Tables, firsts: &[u32], number: u32, item: u32, name: &Name) -> Function
    ensures { result ≡ function_named tables.now firsts.now number item name.now }
{
    Function {
        signature: class_of(tables, number),
        first: first_block(tables, firsts, name),
        item,
    }
}

/// The name of a function, where the item is one.
fn function_name(item: &Item) -> Option<&Name>
    ensures { option_copied result ≡ name_of_function item.now }
{
    match item {
        Item::Funcdecl(item) => Some(&item.name),
        Item::Funcdef(item) => Some(&item.name),
        _ => None,
    }
}

/// The function that the item names first, where it does.
fn first_named(
    tables: &Tables,
    firsts: &[u32],
    number: u32,
    at: u32,
    item: &Item,
) -> Option<Function>
    ensures { result ≡ function_in tables.now firsts.now number at (name_of_function item.now) }
{
    match function_name(item) {
        Some(name) => if is_numbered(tables, name, number) {
            Some(named(tables, firsts, number, at, name))
        } else {
            None
        },
        None => None,
    }
}

/// The functions, each where its name comes first.
pub fn functions(
    alloc: Global,
    tables: &Tables,
    firsts: &[u32],
    items: &[Item],
) -> Result<Listing<Function>, CheckFault>
    ensures ok { IfOk result (λ all. all ≡ functions_from tables.now firsts.now 0 0 items.now) }
    ensures err { IsMemory result }
{
    let mut all = Listing::new(alloc);
    let mut number = 0u32;
    let mut at = 0u32;
    let mut left = items;
    'each: while let [item, more @ ..] = left {
        if let Some(function) = first_named(tables, firsts, number, at, item) {
            all.push(function)?;
            number = next(number)?;
        }
        at = next(at)?;
        left = more;
    }
    Ok(all)
}

/// The classes of the types of the globals. Want of memory is answered where their number does not fit.
pub fn global_types(
    alloc: Global,
    tables: &Tables,
    items: &[Item],
) -> Result<Listing<u32>, AllocError>
    ensures same { IfOk result (λ classes. classes ≡ global_classes tables.now items.now) }
    ensures few { IfOk result (λ classes. length classes < 2 ^ 32) }
{
    let mut classes = Listing::new(alloc);
    let mut left = items;
    'each: while let [item, more @ ..] = left {
        if let Item::GlobalCell(item) = item {
            classes.push(tables.noted_class(&item.of_type))?;
        }
        left = more;
    }
    if classes.len() > u32::MAX as usize {
        return Err(AllocError);
    }
    Ok(classes)
}
