// The constants of a bundle are judged by their types.
ghost use Rattle.std.specs.Prelude.{◌≡◌, ◌<◌, ◌≤◌, length, map, IfOk};
ghost use Rattle.std.specs.List.{All};
ghost use Rattle.demands.specs.Demands.{Meets, as_kind};
ghost use Rattle.mu_values.specs.Constants.{constant_demands, HasMembers};
ghost use Rattle.check_tables.specs.declared.fault.CheckKind.TheVariants.{Const as OfConst};
ghost use Rattle.checked_code.specs.Graph.{type_id};
ghost use Rattle.checked_code.specs.Rules.{constant_id, literal_of, constant_types, constants_demands};

use crate::graph::places_of_names;
use crate::numbers::{constant_id, type_id};
use bundle_names::Globals;
use check_tables::{CheckFault, CheckKind, Tables, fault_at};
use ir_lex::Name;
use ir_tree::{Const, Item};
use mu_values::{Literal, LiteralKind, judge_const};
use std::alloc::{AllocError, Global};
use text_forms::Listing;

fn constant_ids(
    alloc: Global,
    globals: &Globals,
    names: &[Name],
) -> Result<Listing<u32>, AllocError>
    ensures same { IfOk result (λ numbers. numbers ≡ map (constant_id globals.now) names.now) }
    ensures below { IfOk result (λ numbers. All (λ n. n < globals.now.counts.constants) numbers) }
{
    let mut numbers = Listing::new(alloc);
    let mut left = names;
    'each: while let [first, more @ ..] = left {
        numbers.push(constant_id(globals, first)?)?;
        left = more;
    }
    Ok(numbers)
}

/// A literal, with the constants that it names by number. Where nothing has such a name, which the names of a bundle rule out, and
/// where a place is past 2^32 - 1 the answer is out of memory.
pub fn literal(
    alloc: Global,
    globals: &Globals,
    literal: &ir_tree::Literal,
) -> Result<Literal, AllocError>
    ensures same { IfOk result (λ made. made ≡ literal_of globals.now literal.now) }
    ensures members { IfOk result (λ made. HasMembers globals.now.counts.constants made.kind) }
{
    Ok(match literal {
        ir_tree::Literal::Number(numeral) => Literal {
            place: numeral.place,
            kind: LiteralKind::Number {
                negative: numeral.number.negative,
                magnitude: numeral.number.magnitude,
            },
        },
        ir_tree::Literal::Null { place } => Literal {
            place: *place,
            kind: LiteralKind::Null,
        },
        ir_tree::Literal::Members { place, constants } => Literal {
            place: *place,
            kind: LiteralKind::Members {
                constants: constant_ids(alloc, globals, constants.as_slice())?,
                places: places_of_names(alloc, constants.as_slice())?,
            },
        },
    })
}

/// The types of all constants, by id.
pub fn constant_types(
    alloc: Global,
    globals: &Globals,
    items: &[Item],
) -> Result<Listing<u32>, AllocError>
    ensures same { IfOk result (λ types. types ≡ constant_types globals.now items.now) }
    ensures below { IfOk result (λ types. All (λ t. t < globals.now.counts.written) types) }
{
    let mut types = Listing::new(alloc);
    let mut left = items;
    'each: while let [first, more @ ..] = left {
        if let Item::Const(item) = first {
            types.push(type_id(globals, &item.of_type)?)?;
        }
        left = more;
    }
    Ok(types)
}

fn judge_constant(
    alloc: Global,
    tables: &Tables,
    types: &Listing<u32>,
    item: &Const,
) -> Result<(), CheckFault>
    requires types { All (λ t. t < length tables.now.types.definitions) types.now }
    requires written { tables.now.globals.counts.written ≤ length tables.now.types.definitions }
    requires constants { tables.now.globals.counts.constants ≡ length types.now }
    ensures { Meets (as_kind OfConst (constant_demands tables.now.types.definitions types.now (type_id tables.now.globals item.now.of_type) (literal_of tables.now.globals item.now.literal))) result }
{
    let t = type_id(&tables.globals, &item.of_type)?;
    let literal = literal(alloc, &tables.globals, &item.literal)?;
    match judge_const(tables.types.classes(), t, &literal, types) {
        Ok(()) => Ok(()),
        Err(fault) => Err(fault_at(CheckKind::Const(fault.kind), fault.place)),
    }
}

/// Each literal is one of its type, where the constants have these types.
pub fn judge_constants(
    alloc: Global,
    tables: &Tables,
    types: &Listing<u32>,
    items: &[Item],
) -> Result<(), CheckFault>
    requires types { All (λ t. t < length tables.now.types.definitions) types.now }
    requires written { tables.now.globals.counts.written ≤ length tables.now.types.definitions }
    requires constants { tables.now.globals.counts.constants ≡ length types.now }
    ensures { Meets (constants_demands tables.now types.now items.now) result }
{
    let mut left = items;
    'each: while let [first, more @ ..] = left {
        if let Item::Const(item) = first {
            judge_constant(alloc, tables, types, item)?;
        }
        left = more;
    }
    Ok(())
}
