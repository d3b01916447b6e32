// The values of the constants of a bundle.
ghost use Rattle.std.specs.Prelude.{◌≡◌, ◌≢◌, ℕ, ◌<◌, None, length, map, IfOk};
ghost use Rattle.demands.specs.Demands.{first_unmet};
ghost use Rattle.mu_values.specs.Constants.{value_at};
ghost use Rattle.mu_values.specs.declared.scalars.Scalar.{Scalar};
ghost use Rattle.mu_base.specs.Lists.{Roomy};
ghost use Rattle.bundle_names.specs.Globals.{globals_of};
ghost use Rattle.checked_code.specs.Entries.{tables_of};
ghost use Rattle.checked_code.specs.Rules.{item_demands};
ghost use Rattle.checked_code.specs.ConstantValues.{told};
ghost use Rattle.checked_code.specs.Constants.{constant_values};

use crate::constants::constants;
use crate::making::make_all;
use check_tables::Tables;
use checked_code::Constant;
use ir_tree::Item;
use mu_values::{Made, Value};
use std::alloc::{AllocError, Global};
use text_forms::Listing;

/// How many constants there are. Past 2^32 - 1 the answer is out of memory.
fn count(constants: &[Constant]) -> Result<u32, AllocError>
    ensures { IfOk result (λ n. n ≡ length constants.now) }
{
    u32::try_from(constants.len()).map_err(|_| AllocError)
}

/// The value of constant `n`, which is taken out.
fn taken(alloc: Global, made: &mut Made, n: u32) -> Value
    ensures value { result.members ≡ value_at made.old n }
    ensures others { (k : ℕ) → k ≢ n → value_at made.new k ≡ value_at made.old k }
{
    match made.take(n) {
        Some(value) => value,
        None => Value::new(alloc),
    }
}

/// The values of the constants below `many`.
fn listed(alloc: Global, made: Made, many: u32) -> Result<Listing<Value>, AllocError>
    ensures count { IfOk result (λ all. length all ≡ many) }
    ensures values { IfOk result (λ all. (n : ℕ) → n < many → told (map (λ v. v.members) all) n ≡ value_at made n) }
{
    let mut made = made;
    let mut all = Listing::new(alloc);
    for n in 0..many {
        all.push(taken(alloc, &mut made, n))?;
    }
    Ok(all)
}

/// The values of the constants in text order, where the items meet all demands on those that are no functions. Members may come later
/// in the text: it takes passes over the constants that are not made yet, each in the opposite direction to the one before, and each
/// makes at least one. So it takes at most two passes where all members come before what they are members of, or all behind. The memory
/// is that of the scalars, of which a member's are there again in each constant that it is a member of. Past 2^32 - 1 constants the
/// answer is out of memory.
pub fn values(alloc: Global, tables: &Tables, items: &[Item]) -> Result<Listing<Value>, AllocError>
    requires globals { tables.now.globals ≡ globals_of items.now }
    requires tables { tables.now ≡ tables_of tables.now.globals items.now }
    requires met { first_unmet (item_demands tables.now.globals items.now) ≡ None }
    ensures { IfOk result (λ all. map (λ v. v.members) all ≡ constant_values tables.now items.now) }
{
    let constants = constants(alloc, &tables.globals, items)?;
    let many = count(constants.as_slice())?;
    let made = make_all(alloc, tables.types.classes(), constants.as_slice(), many)?;
    listed(alloc, made, many)
}
