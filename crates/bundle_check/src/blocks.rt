// Blocks in their function.
ghost use Rattle.std.specs.Prelude.{◌≡◌, ◌++◌, IfOk, OnOk};
ghost use Rattle.demands.specs.Demands.{Judges, Meets, IsMemory};
ghost use Rattle.checked_code.specs.Blocks.{bound_parameters, bound_handler, head_locals, parameter_demands, handler_number, block_demands, block_code, blocks_demands, blocks_code};

use crate::numbering::next;
use check_tables::{CheckFault, CheckKind, Tables, fault_at};
use checked_code::{BlockCode, Body, Locals};
use code_check::{bind, insts, value_type};
use ir_lex::Name;
use ir_tree::{Block, BlockHead, Parameter};
use name_scopes::Scope;
use std::alloc::Global;
use text_forms::Listing;

fn bind_parameters(
    alloc: Global,
    tables: &Tables,
    locals: &mut Locals,
    parameters: &[Parameter],
) -> Result<(), CheckFault>
    ensures ok { OnOk result (locals.new ≡ bound_parameters tables.now locals.old parameters.now) }
    ensures err { IsMemory result }
{
    let mut left = parameters;
    'each: while let [first, more @ ..] = left {
        bind(
            alloc,
            locals,
            &first.name,
            tables.noted_class(&first.of_type),
        )?;
        left = more;
    }
    Ok(())
}

fn bind_handler(
    alloc: Global,
    tables: &Tables,
    locals: &mut Locals,
    handler: &Option<Name>,
) -> Result<(), CheckFault>
    ensures ok { OnOk result (locals.new ≡ bound_handler tables.now locals.old handler.now) }
    ensures err { IsMemory result }
{
    match handler {
        None => Ok(()),
        Some(name) => bind(alloc, locals, name, tables.types.ref_void()),
    }
}

/// The variables at the first instruction.
fn variables(alloc: Global, tables: &Tables, head: &BlockHead) -> Result<Locals, CheckFault>
    ensures ok { IfOk result (λ locals. locals ≡ head_locals tables.now head.now) }
    ensures err { IsMemory result }
{
    let mut locals = Locals {
        names: Scope::new(alloc),
        classes: Listing::new(alloc),
    };
    bind_parameters(alloc, tables, &mut locals, head.parameters.as_slice())?;
    bind_handler(alloc, tables, &mut locals, &head.handler)?;
    Ok(locals)
}

fn parameters(tables: &Tables, parameters: &[Parameter]) -> Result<(), CheckFault>
    ensures { Meets (parameter_demands tables.now parameters.now) result }
{
    let mut left = parameters;
    'each: while let [first, more @ ..] = left {
        value_type(tables, &first.of_type)?;
        left = more;
    }
    Ok(())
}

/// The number of the variable that is the handler. Want of memory is answered where it does not fit.
fn handler(head: &BlockHead) -> Result<Option<u32>, CheckFault>
    ensures ok { IfOk result (λ number. number ≡ handler_number head.now head.now.handler) }
    ensures err { IsMemory result }
{
    match &head.handler {
        None => Ok(None),
        Some(_) => match u32::try_from(head.parameters.len()) {
            Ok(number) => Ok(Some(number)),
            Err(_) => Err(CheckFault::Memory),
        },
    }
}

/// A block: the types of its parameters, each instruction, and its end.
fn block(
    alloc: Global,
    tables: &Tables,
    body: &Body,
    item: u32,
    at: u32,
    block: &Block,
) -> Result<BlockCode, CheckFault>
    ensures { Judges (block_demands tables.now body.now block.now) (block_code tables.now body.now item at block.now) result }
{
    parameters(tables, block.head.parameters.as_slice())?;
    let mut locals = variables(alloc, tables, &block.head)?;
    let (code, ended) = insts(alloc, tables, body, &mut locals, block.insts.as_slice())?;
    if !ended {
        return Err(fault_at(CheckKind::NoEnding, block.head.name.place));
    }
    Ok(BlockCode {
        item,
        at,
        parameters: block.head.parameters.len(),
        handler: handler(&block.head)?,
        classes: locals.classes,
        code,
    })
}

/// The blocks of a function, added to those of the functions before it.
pub fn blocks(
    alloc: Global,
    tables: &Tables,
    body: &Body,
    item: u32,
    blocks: &[Block],
    all: &mut Listing<BlockCode>,
) -> Result<(), CheckFault>
    ensures judged { Meets (blocks_demands tables.now body.now blocks.now) result }
    ensures ok { OnOk result (all.new ≡ all.old ++ blocks_code tables.now body.now item 0 blocks.now) }
{
    let mut at = 0u32;
    let mut left = blocks;
    'each: while let [first, more @ ..] = left {
        all.push(block(alloc, tables, body, item, at, first)?)?;
        at = next(at)?;
        left = more;
    }
    Ok(())
}
