// The leaves of each type, listed.
ghost use Rattle.std.specs.Prelude.{◌≡◌, ℕ, ◌+◌, ◌<◌, ◌≤◌, true, false, ◌++◌, [], ◌∷◌, suc, length, map, slice_get, slice_index, slice_index_or, slice_set, vec_len, ◌^◌, IfOk, OnOk};
ghost use Rattle.std.specs.List.{flat_map};
ghost use Rattle.type_definitions.specs.Leaves.{leaves, leaves_by, times};
ghost use Rattle.type_definitions.specs.Same.{IsGraph};
ghost use Rattle.type_definitions.specs.Partition.{IsLeast};
ghost use Rattle.type_definitions.specs.Class.{class_of};
ghost use Rattle.mu_types.specs.Rows.{lists};
ghost use Rattle.type_classes.specs.Listings.{row_by, Lists, IsIdentity, RowsDone};
ghost use Rattle.type_classes.specs.RankedTypes.{AreRankedTypes, AreDone};
ghost use Rattle.mu_types.specs.Held.{RowsHold};
ghost use Rattle.type_classes.specs.Walks.{is_marked};

use super::ranking::{is_ordered, order_of};
use super::rows::at;
use std::alloc::{AllocError, Global};
use type_definitions::TypeDef;

// most rows are of one leaf
#[tactic(auto, using(crate::proofs::Listings::alone))]
fn append_list(row: &[u32], out: &mut Vec<u32>) -> Result<(), AllocError>
    ensures { OnOk result (out.new.items ≡ out.old.items ++ row.now) }
{
    if row.len() == 1 {
        out.push(row[0])?;
        return Ok(());
    }
    out.extend_from_slice(row)?;
    Ok(())
}

#[tactic(auto, using(crate::proofs::RowLemmas::row_at, crate::proofs::Listings::no_row))]
fn append_row(
    rows: &[Vec<u32>],
    number: &[usize],
    p: u32,
    out: &mut Vec<u32>,
) -> Result<(), AllocError>
    ensures { OnOk result (out.new.items ≡ out.old.items ++ row_by (lists rows.now) number.now p) }
{
    let n = at(number, p as usize);
    if n < rows.len() {
        append_list(rows[n].as_slice(), out)?;
    }
    Ok(())
}

fn append_each(
    rows: &[Vec<u32>],
    number: &[usize],
    list: &[u32],
    out: &mut Vec<u32>,
) -> Result<(), AllocError>
    ensures { OnOk result (out.new.items ≡ out.old.items ++ flat_map (row_by (lists rows.now) number.now) list.now) }
{
    for p in list {
        append_row(rows, number, *p, out)?;
    }
    Ok(())
}

fn append_times(
    rows: &[Vec<u32>],
    number: &[usize],
    p: u32,
    many: u128,
    out: &mut Vec<u32>,
) -> Result<(), AllocError>
    ensures { OnOk result (out.new.items ≡ out.old.items ++ times many (row_by (lists rows.now) number.now p)) }
{
    for i in 0..many {
        append_row(rows, number, p, out)?;
    }
    Ok(())
}

/// The leaves of a definition, by the rows of its parts. `own` stands for the type itself.
fn listed(
    alloc: Global,
    definition: &TypeDef,
    own: u32,
    rows: &[Vec<u32>],
    number: &[usize],
) -> Result<Vec<u32>, AllocError>
    ensures { IfOk result (λ v. v.items ≡ leaves_by (row_by (lists rows.now) number.now) own definition.now) }
{
    let mut out = Vec::new(alloc);
    match definition {
        TypeDef::Struct { fields } => append_each(rows, number, fields.as_slice(), &mut out)?,
        TypeDef::Array { element, length } => append_times(
            rows, number, *element, *length, &mut out,
        )?,
        TypeDef::Hybrid { fixed, element: _ } => append_each(
            rows,
            number,
            fixed.as_slice(),
            &mut out,
        )?,
        TypeDef::Void | TypeDef::Sig { .. } => {}
        _ => out.push(own)?,
    }
    Ok(out)
}

fn deeper(
    alloc: Global,
    all: &[TypeDef],
    class: &[usize],
    rows: &[Vec<u32>],
    number: &[usize],
) -> Result<Vec<Vec<u32>>, AllocError>
    requires graph { IsGraph all.now }
    requires class { IsLeast all.now class.now }
    requires few { length all.now < 2 ^ 32 }
    requires number { IsIdentity number.now (length all.now) }
    ensures len { IfOk result (λ v. vec_len v ≡ length all.now) }
    ensures lists { IfOk result (λ v. (k : ℕ) → Lists all.now k (lists rows.now) → Lists all.now (suc k) (lists v.items)) }
{
    let mut next = Vec::new(alloc);
    for x in 0..all.len() {
        next.push(listed(alloc, &all[x], at(class, x) as u32, rows, number)?)?;
    }
    Ok(next)
}

/// The leaves by depth: the number of types times as long as needed.
fn listings_plainly(
    alloc: Global,
    all: &[TypeDef],
    class: &[usize],
) -> Result<Vec<Vec<u32>>, AllocError>
    requires graph { IsGraph all.now }
    requires class { IsLeast all.now class.now }
    requires few { length all.now < 2 ^ 32 }
    ensures len { IfOk result (λ v. vec_len v ≡ length all.now) }
    ensures lists { IfOk result (λ v. Lists all.now (length all.now) (lists v.items)) }
{
    let mut rows: Vec<Vec<u32>> = Vec::new(alloc);
    let mut number: Vec<usize> = Vec::new(alloc);
    for i in 0..all.len() {
        rows.push(Vec::new(alloc))?;
        number.push(i)?;
    }
    for depth in 0..all.len() {
        rows = deeper(alloc, all, class, &rows, &number)?;
    }
    Ok(rows)
}

#[tactic(auto, using(crate::proofs::RowLemmas::lists_emptied))]
fn put_row(rows: &mut [Vec<u32>], t: usize, row: Vec<u32>)
    requires { t < length rows.old }
    ensures len { length rows.new ≡ length rows.old }
    ensures row { lists rows.new ≡ slice_set (lists rows.old) t row.items }
{
    rows[t] = row;
}

/// Types with their classes, and with ranks that order them, so that parts come before their wholes.
#[derive(Clone, Copy)]
struct Ranked<'a> {
    /// The definition of each type.
    definitions: &'a [TypeDef],
    /// The class of each type.
    class: &'a [usize],
    /// The rank of each type.
    rank: &'a [usize],
    /// The types by rank.
    order: &'a [usize],
}

// lists the leaves of a type for its class, where that has none yet
#[tactic(auto, using(crate::proofs::Ordered::class_below))]
fn list_type(
    alloc: Global,
    types: Ranked,
    t: usize,
    rows: &mut [Vec<u32>],
    done: &mut [bool],
) -> Result<(), AllocError>
    requires ranked { AreRankedTypes types.definitions.now types.class.now types.rank.now types.order.now }
    requires t { t < length types.definitions.now }
    requires done { AreDone types.definitions.now types.class.now types.rank.now rows.old done.old (slice_index types.rank.now t) }
    ensures rows { length rows.new ≡ length rows.old }
    ensures marks { length done.new ≡ length done.old }
    ensures held { OnOk result (RowsDone types.entry.definitions.now (lists rows.new) done.new) }
    ensures kept { OnOk result ((c : ℕ) → is_marked done.old c ≡ true → is_marked done.new c ≡ true) }
    ensures listed { OnOk result (is_marked done.new (slice_index types.entry.class.now t) ≡ true) }
{
    let c = at(types.class, t);
    if done[c] {
        return Ok(());
    }
    let row = listed(alloc, &types.definitions[t], c as u32, rows, types.class)?;
    put_row(rows, c, row);
    done[c] = true;
    Ok(())
}

fn list_at(
    alloc: Global,
    types: Ranked,
    i: usize,
    rows: &mut [Vec<u32>],
    done: &mut [bool],
) -> Result<(), AllocError>
    requires ranked { AreRankedTypes types.definitions.now types.class.now types.rank.now types.order.now }
    requires done { AreDone types.definitions.now types.class.now types.rank.now rows.old done.old i }
    ensures { OnOk result (AreDone types.entry.definitions.now types.entry.class.now types.entry.rank.now rows.new done.new (i + 1)) }
{
    let t = at(types.order, i);
    if t < types.definitions.len() && at(types.rank, t) == i {
        list_type(alloc, types, t, rows, done)?;
    }
    Ok(())
}

fn list_all(
    alloc: Global,
    types: Ranked,
    rows: &mut [Vec<u32>],
    done: &mut [bool],
) -> Result<(), AllocError>
    requires ranked { AreRankedTypes types.definitions.now types.class.now types.rank.now types.order.now }
    requires rows { length rows.old ≡ length types.definitions.now }
    requires marks { length done.old ≡ length types.definitions.now }
    requires none { (x : ℕ) → is_marked done.old x ≡ false }
    ensures rows { length rows.new ≡ length rows.old }
    ensures held { OnOk result (RowsHold types.entry.definitions.now types.entry.class.now (lists rows.new)) }
{
    for i in 0..types.definitions.len() {
        list_at(alloc, types, i, rows, done)?;
    }
    Ok(())
}

/// The leaves of each class. Where the ranks order all types each class is listed once, for the first of its types in that order;
/// else the leaves of all types are found by depth.
#[tactic(auto, using(crate::proofs::Held::by_class))]
pub fn listings_of(
    alloc: Global,
    all: &[TypeDef],
    class: &[usize],
    rank: &[usize],
) -> Result<Vec<Vec<u32>>, AllocError>
    requires graph { IsGraph all.now }
    requires class { IsLeast all.now class.now }
    requires few { length all.now < 2 ^ 32 }
    ensures len { IfOk result (λ v. vec_len v ≡ length all.now) }
    ensures held { IfOk result (λ v. RowsHold all.now class.now (lists v.items)) }
{
    let order = order_of(alloc, rank)?;
    if !is_ordered(all, rank, &order) {
        let rows = listings_plainly(alloc, all, class)?;
        return Ok(rows);
    }
    let mut rows: Vec<Vec<u32>> = Vec::new(alloc);
    let mut done: Vec<bool> = Vec::new(alloc);
    for i in 0..all.len() {
        rows.push(Vec::new(alloc))?;
        done.push(false)?;
    }
    let types = Ranked {
        definitions: all,
        class,
        rank,
        order: &order,
    };
    list_all(alloc, types, &mut rows, &mut done)?;
    Ok(rows)
}
