// Functions in text order.
ghost use Rattle.std.specs.Prelude.{◌≡◌, ◌++◌, OnOk, option_copied, slice_get};
ghost use Rattle.demands.specs.Demands.{Judges, Meets};
ghost use Rattle.name_scopes.specs.Names.{found};
ghost use Rattle.check_tables.specs.Lookups.{signature_named, signature_in, takes_of};
ghost use Rattle.checked_code.specs.Control.{gives_these};
ghost use Rattle.checked_code.specs.Blocks.{blocks_code};
ghost use Rattle.checked_code.specs.Functions.{body_of, class_of_signature, is_as_declared, first_block_demands, function_demands, functions_demands, all_blocks};

use crate::blocks::blocks;
use crate::bodies::{body, classes_of};
use crate::numbering::{behind, next};
use check_tables::{CheckFault, CheckKind, Signature, Tables};
use checked_code::BlockCode;
use code_check::{are_classes, demand, is_class};
use ir_lex::Name;
use ir_tree::{Block, Funcdef, Item};
use std::alloc::Global;
use text_forms::Listing;

fn class_of(signature: Option<&Signature>) -> Option<u32>
    ensures { result ≡ class_of_signature (option_copied signature.entry) }
{
    match signature {
        Some(signature) => Some(signature.class),
        None => None,
    }
}

/// The signature of a declaration.
fn declared(tables: &Tables, n: u32) -> Option<&Signature>
    ensures { option_copied result ≡ signature_in tables.now (slice_get tables.now.declarations n) }
{
    match tables.declarations.as_slice().get(n as usize) {
        Some(s) => tables.signatures.as_slice().get(*s as usize),
        None => None,
    }
}

/// Whether a declaration of the function, where there is one, has its signature.
fn is_as_declared(tables: &Tables, function: &Funcdef) -> bool
    ensures { result ≡ is_as_declared tables.now (found tables.now.globals.declared function.now.name.text) function.now.signature }
{
    match tables.globals.declared.find(function.name.text.as_slice()) {
        None => true,
        Some(n) => is_class(
            class_of(declared(tables, *n)),
            class_of(tables.signature_named(&function.signature)),
        ),
    }
}

/// Whether the signature that a name stands for takes these classes.
fn takes_these(tables: &Tables, signature: &Name, classes: &[u32]) -> bool
    ensures { result ≡ gives_these (takes_of (signature_named tables.now signature.now)) classes.now }
{
    match tables.takes_named(signature) {
        Some(taken) => are_classes(taken, classes),
        None => false,
    }
}

/// The first block has no handler, and the parameters of the signature.
fn first_block(
    alloc: Global,
    tables: &Tables,
    signature: &Name,
    blocks: &[Block],
) -> Result<(), CheckFault>
    ensures { Meets (first_block_demands tables.now signature.now blocks.now) result }
{
    let [first, ..] = blocks else {
        return Ok(());
    };
    let classes = classes_of(alloc, tables, first.head.parameters.as_slice())?;
    let met = first.head.handler.is_none() && takes_these(tables, signature, classes.as_slice());
    demand(met, CheckKind::EntryParameters, first.head.name.place)
}

/// A function, whose first block has this number.
fn function(
    alloc: Global,
    tables: &Tables,
    item: u32,
    first: u32,
    function: &Funcdef,
    all: &mut Listing<BlockCode>,
) -> Result<(), CheckFault>
    ensures judged { Meets (function_demands tables.now first function.now) result }
    ensures ok { OnOk result (all.new ≡ all.old ++ blocks_code tables.now (body_of tables.now first function.now) item 0 function.now.blocks) }
{
    demand(
        is_as_declared(tables, function),
        CheckKind::BadSignature,
        function.signature.place,
    )?;
    first_block(
        alloc,
        tables,
        &function.signature,
        function.blocks.as_slice(),
    )?;
    let body = body(alloc, tables, first, function)?;
    blocks(alloc, tables, &body, item, function.blocks.as_slice(), all)
}

/// The blocks of all functions.
pub fn all_functions(
    alloc: Global,
    tables: &Tables,
    items: &[Item],
) -> Result<Listing<BlockCode>, CheckFault>
    ensures { Judges (functions_demands tables.now 0 items.now) (all_blocks tables.now 0 0 items.now) result }
{
    let mut all = Listing::new(alloc);
    let mut at = 0u32;
    let mut first = 0u32;
    let mut left = items;
    'each: while let [item, more @ ..] = left {
        if let Item::Funcdef(definition) = item {
            function(alloc, tables, at, first, definition, &mut all)?;
            first = behind(first, definition.blocks.as_slice())?;
        }
        at = next(at)?;
        left = more;
    }
    Ok(all)
}
