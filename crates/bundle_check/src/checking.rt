// The check of a bundle.
ghost use Rattle.std.specs.Prelude.{◌≡◌, None, map, IfOk};
ghost use Rattle.demands.specs.Demands.{Judges, Meets, ◌⨾◌, first_unmet};
ghost use Rattle.bundle_names.specs.Globals.{globals_of};
ghost use Rattle.checked_code.specs.Entries.{tables_of};
ghost use Rattle.checked_code.specs.Rules.{item_demands};
ghost use Rattle.checked_code.specs.Constants.{constant_values};
ghost use Rattle.checked_code.specs.Functions.{functions_demands, all_blocks};
ghost use Rattle.checked_code.specs.Checking.{check_demands, bundle_tables, bundle_blocks};

use crate::functions::all_functions;
use crate::numbering::{first_of_each, functions, global_types};
use bundle_constants::values;
use bundle_names::{Globals, Resolved};
use bundle_tables::tables;
use check_tables::{CheckFault, Tables};
use checked_code::{BlockCode, Checked};
use ir_tree::Item;
use mu_values::Value;
use std::alloc::{AllocError, Global};
use text_forms::Listing;

/// What the items say, and the blocks of their functions.
#[tactic(auto, using(crate::proofs::Judged::met_and_unmet, crate::proofs::Judged::both_met))]
fn judged(
    alloc: Global,
    items: &[Item],
    globals: Globals,
) -> Result<(Tables, Listing<BlockCode>), CheckFault>
    requires { globals ≡ globals_of items.now }
    ensures { Judges (item_demands globals items.now ⨾ functions_demands (tables_of globals items.now) 0 items.now) (tables_of globals items.now, all_blocks (tables_of globals items.now) 0 0 items.now) result }
{
    let tables = tables(alloc, items, globals)?;
    let blocks = all_functions(alloc, &tables, items)?;
    Ok((tables, blocks))
}

/// The same for what the global names of the items stand for.
#[tactic(auto, unfolding(checked_code::specs::Checking::check_demands))]
fn judged_whole(
    alloc: Global,
    items: &[Item],
    globals: Globals,
) -> Result<(Tables, Listing<BlockCode>), CheckFault>
    requires { globals ≡ globals_of items.now }
    ensures { Judges (check_demands items.now) (bundle_tables items.now, bundle_blocks items.now) result }
{
    judged(alloc, items, globals)
}

/// The values of the constants of a bundle that meets all demands.
#[tactic(auto, using(crate::proofs::Judged::items_met), unfolding(checked_code::specs::Checking::check_demands, checked_code::specs::Entries::tables_of))]
fn constants(alloc: Global, tables: &Tables, items: &[Item]) -> Result<Listing<Value>, AllocError>
    requires tables { tables.now ≡ bundle_tables items.now }
    requires met { first_unmet (check_demands items.now) ≡ None }
    ensures { IfOk result (λ values. map (λ v. v.members) values ≡ constant_values (bundle_tables items.now) items.now) }
{
    values(alloc, tables, items)
}

/// Judges a bundle whose names are all defined, as `check` does, and keeps nothing of it. It makes no value of a constant, so it takes
/// memory in proportion to the text and to the scalars of its types, however many members its constants have. The bundle is taken in
/// each case.
pub fn judge(alloc: Global, names: Resolved) -> Result<(), CheckFault>
    ensures { Meets (check_demands names) result }
{
    let (bundle, globals) = names.into_parts();
    judged_whole(alloc, bundle.as_slice(), globals)?;
    Ok(())
}

/// Judges a bundle whose names are all defined. The fault is the first demand that is not met: of types in three passes over the text
/// (arguments, types that contain themselves, types with too many leaves), of constants, of signatures, of globals, then function by
/// function. Want of memory is also answered where numbers do not fit: more than 2^32 - 1 blocks, say. The bundle is taken in each
/// case. It takes time in proportion to the text, save for the classes of types, one hash for each name that is used, and the values of
/// the constants, which are made in passes where members come later than what they are members of.
pub fn check(alloc: Global, names: Resolved) -> Result<Checked, CheckFault>
    ensures { Judges (check_demands names) names result }
{
    let (bundle, globals) = names.into_parts();
    let (tables, blocks) = judged_whole(alloc, bundle.as_slice(), globals)?;
    let firsts = first_of_each(alloc, bundle.as_slice())?;
    let functions = functions(alloc, &tables, firsts.as_slice(), bundle.as_slice())?;
    let global_types = global_types(alloc, &tables, bundle.as_slice())?;
    let constants = constants(alloc, &tables, bundle.as_slice())?;
    Ok(Checked::new(bundle, tables, functions, blocks, global_types, constants))
}
