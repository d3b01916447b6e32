// What the items that are no types and no functions must meet.
ghost use Rattle.std.specs.Prelude.{◌+◌, length, nat_le};
ghost use Rattle.demands.specs.Demands.{demand, ◌⨾◌, Judges, Meets};
ghost use Rattle.mu_types.specs.declared.faults.TypeKind.TheVariants.{TooManyLeaves};
ghost use Rattle.check_tables.specs.declared.fault.CheckKind.TheVariants.{BadSignature, OperandType, Types};
ghost use Rattle.check_tables.specs.Lookups.{definition_named, leaves_named};
ghost use Rattle.check_tables.specs.TypeTests.{is_sized, is_value_type};
ghost use Rattle.checked_code.specs.Rules.{signature_type_demands, signatures_demands, most_leaves_of_globals, globals_demands};

use check_tables::{CheckFault, CheckKind, Tables, fault_at};
use ir_lex::Name;
use ir_tree::{GlobalCell, Item};
use mu_types::TypeKind;

/// The most leaves that all globals have together.
const MOST_LEAVES_OF_GLOBALS: usize = 65536;

fn judge_signature_type(tables: &Tables, name: &Name) -> Result<(), CheckFault>
    ensures { Meets (demand name.now.place BadSignature (is_value_type (definition_named tables.now name.now) (leaves_named tables.now name.now))) result }
{
    if tables.is_value_type(name) {
        Ok(())
    } else {
        Err(fault_at(CheckKind::BadSignature, name.place))
    }
}

fn judge_signature_types(tables: &Tables, names: &[Name]) -> Result<(), CheckFault>
    ensures { Meets (signature_type_demands tables.now names.now) result }
{
    let mut left = names;
    'each: while let [first, more @ ..] = left {
        judge_signature_type(tables, first)?;
        left = more;
    }
    Ok(())
}

/// The types of signatures are types that variables may have.
pub fn judge_signatures(tables: &Tables, items: &[Item]) -> Result<(), CheckFault>
    ensures { Meets (signatures_demands tables.now items.now) result }
{
    let mut left = items;
    'each: while let [first, more @ ..] = left {
        if let Item::Funcsig(item) = first {
            judge_signature_types(tables, item.takes.as_slice())?;
            judge_signature_types(tables, item.gives.as_slice())?;
        }
        left = more;
    }
    Ok(())
}

/// So many leaves, with those of one more global.
fn judge_global(tables: &Tables, leaves: usize, item: &GlobalCell) -> Result<usize, CheckFault>
    ensures { Judges (demand item.now.of_type.place OperandType (is_sized (definition_named tables.now item.now.of_type)) ⨾ demand item.now.of_type.place (Types TooManyLeaves) (nat_le (leaves + length (leaves_named tables.now item.now.of_type)) most_leaves_of_globals)) (leaves + length (leaves_named tables.now item.now.of_type)) result }
{
    if !tables.is_sized(&item.of_type) {
        return Err(fault_at(CheckKind::OperandType, item.of_type.place));
    }
    match leaves.checked_add(tables.leaf_count(&item.of_type)) {
        Some(leaves) if leaves <= MOST_LEAVES_OF_GLOBALS => Ok(leaves),
        _ => Err(fault_at(
            CheckKind::Types(TypeKind::TooManyLeaves),
            item.of_type.place,
        )),
    }
}

/// Globals have types with values of one size, and not too many leaves together.
pub fn judge_globals(tables: &Tables, items: &[Item]) -> Result<(), CheckFault>
    ensures { Meets (globals_demands tables.now 0 items.now) result }
{
    let mut leaves = 0;
    let mut left = items;
    'each: while let [first, more @ ..] = left {
        if let Item::GlobalCell(item) = first {
            leaves = judge_global(tables, leaves, item)?;
        }
        left = more;
    }
    Ok(())
}
