// The items of a bundle that are no functions are judged.
ghost use Rattle.std.specs.Prelude.{◌≡◌};
ghost use Rattle.demands.specs.Demands.{◌⨾◌, Judges, Meets};
ghost use Rattle.bundle_names.specs.Globals.{globals_of};
ghost use Rattle.checked_code.specs.Graph.{table_of};
ghost use Rattle.checked_code.specs.Entries.{tables_of};
ghost use Rattle.checked_code.specs.Rules.{constant_types, constants_demands, signatures_demands, globals_demands, item_demands};

use crate::constants::{constant_types, judge_constants};
use crate::entries::entries;
use crate::rules::{judge_globals, judge_signatures};
use crate::types::type_table;
use bundle_names::Globals;
use check_tables::{CheckFault, Tables};
use ir_tree::Item;
use std::alloc::Global;

/// Constants, signatures and globals, where the types are judged.
#[tactic(auto, using(checked_code::specs::Lemmas::Counted::written_within, checked_code::specs::Lemmas::Counted::constants_counted))]
fn judge_others(alloc: Global, tables: &Tables, items: &[Item]) -> Result<(), CheckFault>
    requires types { tables.now.types ≡ table_of tables.now.globals items.now }
    requires globals { tables.now.globals ≡ globals_of items.now }
    ensures { Meets (constants_demands tables.now (constant_types tables.now.globals items.now) items.now ⨾ signatures_demands tables.now items.now ⨾ globals_demands tables.now 0 items.now) result }
{
    let types = constant_types(alloc, &tables.globals, items)?;
    judge_constants(alloc, tables, &types, items)?;
    judge_signatures(tables, items)?;
    judge_globals(tables, items)
}

/// What the items of a bundle say, by number, where those that are no functions meet all demands on them; else the first that they do
/// not meet: the types in three passes, then the constants, the signatures and the globals, each in text order. `globals` is what the
/// global names of these items stand for. It takes the time of `type_classes::classes`, and a few hashes for each name. Past 5 * 10^8
/// items, or where a place is past 2^32 - 1, the answer is out of memory.
pub fn tables(alloc: Global, items: &[Item], globals: Globals) -> Result<Tables, CheckFault>
    requires { globals ≡ globals_of items.now }
    ensures { Judges (item_demands globals items.now) (tables_of globals items.now) result }
{
    let types = type_table(alloc, &globals, items)?;
    let tables = entries(alloc, types, globals, items)?;
    judge_others(alloc, &tables, items)?;
    Ok(tables)
}
