// Destinations, what a stack is entered with, and variables that are kept.
ghost use Rattle.std.specs.Prelude.{◌≡◌, option_copied};
ghost use Rattle.std.specs.Option.{option_map_or};
ghost use Rattle.demands.specs.Demands.{Judges, none};
ghost use Rattle.checked_code.specs.Operands.{variable_demands};
ghost use Rattle.checked_code.specs.Destinations.{block_named, entry_takes, takes_no_exception, exceptional_demands, normal_demands, block_number, target_of, optional_target, keepalive_numbers, entered_demands, entered_code};

use crate::operands::{arguments, demand, kept, thrown, value_types};
use check_tables::{CheckFault, CheckKind, Tables};
use checked_code::{Body, Entered, Locals, Target};
use ir_lex::Name;
use ir_tree::{Destination, NewStackClause};
use std::alloc::Global;
use text_forms::Listing;

/// The classes of the parameters of the block that a name stands for.
fn takes<'a>(body: &'a Body, name: &Name) -> Option<&'a [u32]>
    ensures { option_copied result ≡ entry_takes (block_named body.now name.now) }
{
    match body.blocks.find(name.text.as_slice()) {
        Some(block) => Some(block.takes.as_slice()),
        None => None,
    }
}

/// Whether the name is that of a block without a handler.
fn takes_no_exception(body: &Body, name: &Name) -> bool
    ensures { result ≡ takes_no_exception (block_named body.now name.now) }
{
    match body.blocks.find(name.text.as_slice()) {
        Some(block) => !block.has_handler,
        None => false,
    }
}

/// The number of the block that a name stands for, and 0 where there is none.
fn block_number(body: &Body, name: &Name) -> u32
    ensures { result ≡ block_number (block_named body.now name.now) }
{
    match body.blocks.find(name.text.as_slice()) {
        Some(block) => block.number,
        None => 0,
    }
}

/// Where an exception goes.
pub fn exceptional(
    alloc: Global,
    tables: &Tables,
    body: &Body,
    locals: &Locals,
    destination: &Destination,
) -> Result<Target, CheckFault>
    ensures { Judges (exceptional_demands tables.now body.now locals.now destination.now) (target_of tables.now body.now locals.now destination.now) result }
{
    let wanted = takes(body, &destination.block);
    let arguments = arguments(alloc, tables, locals, &destination.arguments, wanted)?;
    Ok(Target {
        block: block_number(body, &destination.block),
        arguments,
    })
}

/// Every other destination: the block has no handler.
pub fn normal(
    alloc: Global,
    tables: &Tables,
    body: &Body,
    locals: &Locals,
    destination: &Destination,
) -> Result<Target, CheckFault>
    ensures { Judges (normal_demands tables.now body.now locals.now destination.now) (target_of tables.now body.now locals.now destination.now) result }
{
    let block = &destination.block;
    demand(
        takes_no_exception(body, block),
        CheckKind::BadDestination,
        block.place,
    )?;
    exceptional(alloc, tables, body, locals, destination)
}

/// A normal destination, where there is one.
pub fn optional_normal(
    alloc: Global,
    tables: &Tables,
    body: &Body,
    locals: &Locals,
    destination: Option<&Destination>,
) -> Result<Option<Target>, CheckFault>
    ensures { Judges (option_map_or (normal_demands tables.now body.now locals.now) (option_copied destination.entry) none) (optional_target tables.now body.now locals.now (option_copied destination.entry)) result }
{
    match destination {
        Some(destination) => Ok(Some(normal(alloc, tables, body, locals, destination)?)),
        None => Ok(None),
    }
}

/// Where an exception goes, where there is a destination for it.
pub fn optional_exceptional(
    alloc: Global,
    tables: &Tables,
    body: &Body,
    locals: &Locals,
    destination: Option<&Destination>,
) -> Result<Option<Target>, CheckFault>
    ensures { Judges (option_map_or (exceptional_demands tables.now body.now locals.now) (option_copied destination.entry) none) (optional_target tables.now body.now locals.now (option_copied destination.entry)) result }
{
    match destination {
        Some(destination) => Ok(Some(exceptional(alloc, tables, body, locals, destination)?)),
        None => Ok(None),
    }
}

/// The variables of `KEEPALIVE`, where it is there.
pub fn keepalive(
    alloc: Global,
    locals: &Locals,
    names: Option<&Listing<Name>>,
) -> Result<Listing<u32>, CheckFault>
    ensures { Judges (option_map_or (variable_demands locals.now) (option_copied names.entry) none) (keepalive_numbers locals.now (option_copied names.entry)) result }
{
    match names {
        Some(names) => kept(alloc, locals, names.as_slice()),
        None => Ok(Listing::new(alloc)),
    }
}

/// What a stack is entered with: values of value types, or an exception.
pub fn entered(
    alloc: Global,
    tables: &Tables,
    locals: &Locals,
    clause: &NewStackClause,
) -> Result<Entered, CheckFault>
    ensures { Judges (entered_demands tables.now locals.now clause.now) (entered_code tables.now locals.now clause.now) result }
{
    match clause {
        NewStackClause::PassValues { types, values } => {
            let classes = value_types(alloc, tables, types.as_slice())?;
            let values = arguments(alloc, tables, locals, values, Some(classes.as_slice()))?;
            Ok(Entered::Values { classes, values })
        }
        NewStackClause::ThrowExc { exception } => {
            Ok(Entered::Exception(thrown(tables, locals, exception)?))
        }
    }
}
