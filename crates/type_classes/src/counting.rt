// The third pass: how many leaves each type has, up to one more than are allowed.
ghost use Rattle.std.specs.Prelude.{◌≡◌, ℕ, ◌+◌, ◌*◌, ◌<◌, ◌≤◌, suc, min, Option, None, Some, length, slice_get, slice_index, vec_len, IfOk};
ghost use Rattle.std.specs.List.{sum_by};
ghost use Rattle.type_definitions.specs.Counts.{count_by};
ghost use Rattle.demands.specs.Demands.{first_unmet};
ghost use Rattle.mu_types.specs.TypeDemands.{too_many_leaves, each};
ghost use Rattle.type_definitions.specs.Leaves.{leaves};
ghost use Rattle.type_definitions.specs.Same.{IsGraph};
ghost use Rattle.type_definitions.specs.Ranks.{AreRanked};
ghost use Rattle.type_classes.specs.Ordered.{IsOrder, Found};
ghost use Rattle.type_classes.specs.Levels.{Counts};

use super::blocks::identity;
use super::judging::place_of;
use super::ranking::{is_ordered, order_of};
use super::rows::{at, put};
use mu_types::{MOST_LEAVES, TypeFault, TypeKind};
use std::alloc::{AllocError, Global};
use text_forms::Listing;
use type_definitions::TypeDef;

/// One more than the greatest number of leaves: all greater numbers count as this.
pub const CAP: usize = 4097;

fn capped_sum_of(a: usize, b: usize) -> usize
    requires { a ≤ CAP }
    ensures { result ≡ min CAP (a + b) }
{
    if b > CAP - a { CAP } else { a + b }
}

#[tactic(auto, using(type_definitions::specs::Lemmas::Counts::capped_both))]
fn capped_product_of(n: u128, count: usize) -> usize
    ensures { result ≡ min CAP (n * count) }
{
    let n = if n < CAP as u128 { n as usize } else { CAP };
    let count = if count < CAP { count } else { CAP };
    let product = n * count;
    if product < CAP { product } else { CAP }
}

fn count_each(list: &[u32], counts: &[usize]) -> usize
    ensures { result ≡ min CAP (sum_by (λ p. slice_index counts.now p) list.now) }
{
    let mut sum = 0;
    for p in list {
        sum = capped_sum_of(sum, at(counts, *p as usize));
    }
    sum
}

fn count(definition: &TypeDef, counts: &[usize]) -> usize
    ensures { result ≡ min CAP (count_by (λ p. slice_index counts.now p) definition.now) }
{
    match definition {
        TypeDef::Struct { fields } => count_each(fields.as_slice(), counts),
        TypeDef::Array { element, length } => capped_product_of(
            *length,
            at(counts, *element as usize),
        ),
        TypeDef::Hybrid { fixed, element: _ } => count_each(fixed.as_slice(), counts),
        TypeDef::Void | TypeDef::Sig { .. } => 0,
        _ => 1,
    }
}

fn deeper(alloc: Global, all: &[TypeDef], counts: &[usize]) -> Result<Vec<usize>, AllocError>
    requires { length counts.now ≡ length all.now }
    ensures len { IfOk result (λ v. vec_len v ≡ length all.now) }
    ensures counts { IfOk result (λ v. (k : ℕ) → Counts all.now k CAP counts.now → Counts all.now (suc k) CAP v.items) }
{
    let mut next = Vec::new(alloc);
    for x in 0..all.len() {
        next.push(count(&all[x], counts))?;
    }
    Ok(next)
}

/// The numbers of leaves, by depth, in the square of the number of types.
fn counts_plainly(alloc: Global, all: &[TypeDef]) -> Result<Vec<usize>, AllocError>
    ensures { IfOk result (λ v. Counts all.now (length all.now) CAP v.items) }
{
    let mut counts = Vec::new(alloc);
    for i in 0..all.len() {
        counts.push(0)?;
    }
    for depth in 0..all.len() {
        counts = deeper(alloc, all, &counts)?;
    }
    Ok(counts)
}

fn count_at(all: &[TypeDef], rank: &[usize], order: &[usize], i: usize, counts: &mut [usize])
    requires graph { IsGraph all.now }
    requires ranked { AreRanked all.now rank.now }
    requires order { IsOrder (length all.now) rank.now order.now }
    requires len { length counts.old ≡ length all.now }
    requires found { Found 0 (length all.now) rank.now (λ x. min CAP (length (leaves all.now x))) counts.old i }
    ensures len { length counts.new ≡ length all.now }
    ensures found { Found 0 (length all.now) rank.now (λ x. min CAP (length (leaves all.now x))) counts.new (i + 1) }
{
    let t = at(order, i);
    if t < all.len() && at(rank, t) == i {
        let many = count(&all[t], counts);
        put(counts, t, many);
    }
}

fn count_all(all: &[TypeDef], rank: &[usize], order: &[usize], counts: &mut [usize])
    requires graph { IsGraph all.now }
    requires ranked { AreRanked all.now rank.now }
    requires order { IsOrder (length all.now) rank.now order.now }
    requires len { length counts.old ≡ length all.now }
    ensures len { length counts.new ≡ length all.now }
    ensures counts { Counts all.now (length all.now) CAP counts.new }
{
    for i in 0..all.len() {
        count_at(all, rank, order, i, counts);
    }
}

/// The numbers of leaves. Where the ranks order all types each is counted once; else they are found by depth.
pub fn counts_of(alloc: Global, all: &[TypeDef], rank: &[usize]) -> Result<Vec<usize>, AllocError>
    requires { IsGraph all.now }
    ensures { IfOk result (λ v. Counts all.now (length all.now) CAP v.items) }
{
    let order = order_of(alloc, rank)?;
    if !is_ordered(all, rank, &order) {
        return counts_plainly(alloc, all);
    }
    let mut counts = identity(alloc, all.len())?;
    count_all(all, rank, &order, &mut counts);
    Ok(counts)
}

/// The first, of the first so many definitions, with too many leaves, by the numbers of leaves.
pub fn first_too_many(
    all: &[TypeDef],
    places: &[Listing<u32>],
    many: usize,
    counts: &[usize],
) -> Option<TypeFault>
    requires counts { Counts all.now (length all.now) CAP counts.now }
    ensures { result ≡ first_unmet (each (too_many_leaves all.now places.now) many 0) }
{
    for t in 0..many {
        if at(counts, t) > MOST_LEAVES {
            let place = place_of(places, t, 0);
            return Some(TypeFault::At {
                kind: TypeKind::TooManyLeaves,
                place,
            });
        }
    }
    None
}
