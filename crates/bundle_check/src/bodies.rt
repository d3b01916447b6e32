// What the instructions of a function may use.
ghost use Rattle.std.specs.Prelude.{◌≡◌, ◌+◌, ◌++◌, [], length, IfOk, OnOk, is_some};
ghost use Rattle.demands.specs.Demands.{IsMemory};
ghost use Rattle.check_tables.specs.Lookups.{gives_of, noted_classes, signature_named};
ghost use Rattle.checked_code.specs.Blocks.{parameter_classes};
ghost use Rattle.checked_code.specs.Functions.{entry_of, entries_from, body_of};

use crate::numbering::next;
use check_tables::{CheckFault, Tables};
use checked_code::{BlockEntry, Body};
use ir_tree::{Block, Funcdef, Parameter};
use name_scopes::Scope;
use std::alloc::{AllocError, Global};
use text_forms::Listing;

/// The classes of parameters.
pub fn classes_of(
    alloc: Global,
    tables: &Tables,
    parameters: &[Parameter],
) -> Result<Listing<u32>, AllocError>
    ensures { IfOk result (λ classes. classes ≡ parameter_classes tables.now parameters.now) }
{
    let mut classes = Listing::new(alloc);
    let mut left = parameters;
    'each: while let [first, more @ ..] = left {
        classes.push(tables.noted_class(&first.of_type))?;
        left = more;
    }
    Ok(classes)
}

fn copied(alloc: Global, classes: &[u32]) -> Result<Listing<u32>, AllocError>
    ensures { IfOk result (λ copy. copy ≡ classes.now) }
{
    let mut copy = Listing::new(alloc);
    let mut left = classes;
    'each: while let [first, more @ ..] = left {
        copy.push(*first)?;
        left = more;
    }
    Ok(copy)
}

/// A block as a destination.
fn entry(
    alloc: Global,
    tables: &Tables,
    number: u32,
    block: &Block,
) -> Result<BlockEntry, AllocError>
    ensures { IfOk result (λ e. e ≡ entry_of tables.now number block.now) }
{
    let takes = classes_of(alloc, tables, block.head.parameters.as_slice())?;
    Ok(BlockEntry {
        number,
        takes,
        has_handler: block.head.handler.is_some(),
    })
}

/// The blocks of a function as destinations. Want of memory is also answered where their numbers do not fit.
fn entries(
    alloc: Global,
    tables: &Tables,
    first: u32,
    blocks: &[Block],
) -> Result<Scope<BlockEntry>, CheckFault>
    ensures ok { IfOk result (λ scope. scope ≡ entries_from tables.now [] first blocks.now) }
    ensures err { IsMemory result }
{
    let mut scope = Scope::new(alloc);
    let mut number = first;
    let mut left = blocks;
    'each: while let [block, more @ ..] = left {
        let entry = entry(alloc, tables, number, block)?;
        scope.define(alloc, block.head.name.text.as_slice(), entry)?;
        number = next(number)?;
        left = more;
    }
    Ok(scope)
}

/// What the instructions of a function may use, whose first block has this number.
#[tactic(auto, unfolding(checked_code::specs::Functions::body_of))]
pub fn body(
    alloc: Global,
    tables: &Tables,
    first: u32,
    function: &Funcdef,
) -> Result<Body, CheckFault>
    ensures ok { IfOk result (λ body. body ≡ body_of tables.now first function.now) }
    ensures err { IsMemory result }
{
    let blocks = entries(alloc, tables, first, function.blocks.as_slice())?;
    let gives = match tables.gives_named(&function.signature) {
        Some(classes) => copied(alloc, classes)?,
        None => Listing::new(alloc),
    };
    Ok(Body { blocks, gives })
}
