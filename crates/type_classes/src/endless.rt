// The second pass: which types contain themselves.
ghost use Rattle.std.specs.Prelude.{◌≡◌, ℕ, ◌+◌, ◌<◌, ◌≤◌, suc, ◌||◌, ◌==◌, Option, None, Some, true, length, slice_get, slice_index, vec_len, IfOk, IsTrue};
ghost use Rattle.std.specs.List.{list_any, All};
ghost use Rattle.type_definitions.specs.Parts.{parts, parts_at, leads, contains_itself};
ghost use Rattle.type_definitions.specs.Ranks.{Descends, IsFree};
ghost use Rattle.demands.specs.Demands.{first_unmet};
ghost use Rattle.mu_types.specs.TypeDemands.{endless_type, each};
ghost use Rattle.type_classes.specs.Walks.{Marks, is_marked};

use super::judging::place_of;
use super::ranking::{descends, parts_stay_below};
use super::rows::{at, put};
use mu_types::{TypeFault, TypeKind};
use std::alloc::{AllocError, Global};
use text_forms::Listing;
use type_definitions::TypeDef;

/// How many parts there are.
pub fn part_count(definition: &TypeDef) -> usize
    ensures { result ≡ length (parts definition.now) }
{
    match definition {
        TypeDef::Struct { fields } => fields.len(),
        TypeDef::Array { .. } => 1,
        TypeDef::Hybrid { fixed, element: _ } => fixed.as_slice().len() + 1,
        _ => 0,
    }
}

/// The part with that number, counted from 0.
pub fn part(definition: &TypeDef, k: usize) -> usize
    requires { k < length (parts definition.now) }
    ensures { result ≡ slice_index (parts definition.now) k }
{
    match definition {
        TypeDef::Struct { fields } => fields.as_slice()[k] as usize,
        TypeDef::Array { element, .. } => *element as usize,
        TypeDef::Hybrid { fixed, element } => {
            if k < fixed.len() {
                fixed.as_slice()[k] as usize
            } else {
                *element as usize
            }
        }
        _ => 0,
    }
}

fn has_part(definition: &TypeDef, goal: usize) -> bool
    ensures { result ≡ list_any (λ p. p == goal) (parts definition.now) }
{
    for k in 0..part_count(definition) {
        let p = part(definition, k);
        if p == goal {
            return true;
        }
    }
    false
}

// whether a part is the goal or is marked
fn has_marked_part(definition: &TypeDef, marks: &[bool], goal: usize) -> bool
    ensures { result ≡ list_any (λ p. (p == goal) || is_marked marks.now p) (parts definition.now) }
{
    for k in 0..part_count(definition) {
        let p = part(definition, k);
        if p == goal || p < marks.len() && marks[p] {
            return true;
        }
    }
    false
}

fn farther(
    alloc: Global,
    all: &[TypeDef],
    marks: &[bool],
    goal: usize,
) -> Result<Vec<bool>, AllocError>
    requires { length marks.now ≡ length all.now }
    ensures len { IfOk result (λ v. vec_len v ≡ length all.now) }
    ensures marks { IfOk result (λ v. (k : ℕ) → Marks all.now k goal marks.now → Marks all.now (suc k) goal v.items) }
{
    let mut next = Vec::new(alloc);
    for x in 0..all.len() {
        next.push(has_marked_part(&all[x], marks, goal))?;
    }
    Ok(next)
}

/// Whether the type contains itself, in the square of the number of types.
fn contains_itself_plainly(alloc: Global, all: &[TypeDef], t: usize) -> Result<bool, AllocError>
    requires { t < length all.now }
    ensures { IfOk result (λ b. b ≡ contains_itself all.now t) }
{
    let mut marks = Vec::new(alloc);
    for i in 0..all.len() {
        marks.push(false)?;
    }
    for steps in 0..all.len() {
        marks = farther(alloc, all, &marks, t)?;
    }
    Ok(marks[t])
}

// a way from a type to parts, as far as it is found: for each type that is met the one before it, and one of which the first is a part
#[derive(Drop)]
struct Way {
    before: Vec<usize>,
    last: usize,
}

// meets the parts of x that have the rank of t; whether one of the parts is t
fn meet_parts(
    way: &mut Way,
    open: &mut Vec<usize>,
    definition: &TypeDef,
    rank: &[usize],
    x: usize,
    t: usize,
) -> Result<bool, AllocError> {
    for k in 0..part_count(definition) {
        let p = part(definition, k);
        if p == t {
            way.last = x;
            return Ok(true);
        }
        if at(rank, p) == at(rank, t) && at(&way.before, p) == usize::MAX {
            put(&mut way.before, p, x);
            open.push(p)?;
        }
    }
    Ok(false)
}

// a way from t to t, proposed: whoever uses it tests it
fn way_around(alloc: Global, all: &[TypeDef], rank: &[usize], t: usize) -> Result<Way, AllocError> {
    let mut before = Vec::new(alloc);
    for _ in 0..all.len() {
        before.push(usize::MAX)?;
    }
    let mut way = Way { before, last: t };
    let mut open: Vec<usize> = Vec::new(alloc);
    open.push(t)?;
    for _ in 0..all.len() {
        let Some(x) = open.pop() else {
            break;
        };
        if x < all.len() && meet_parts(&mut way, &mut open, &all[x], rank, x, t)? {
            break;
        }
    }
    Ok(way)
}

// follows the way back from its last type to t
#[tactic(auto, using(crate::proofs::Walks::around))]
fn leads_around(all: &[TypeDef], before: &[usize], last: usize, t: usize) -> bool
    ensures { IsTrue result → contains_itself all.now t ≡ true }
{
    let mut x = last;
    let mut next = t;
    for steps in 0..all.len() {
        if x >= all.len() {
            return false;
        }
        if !has_part(&all[x], next) {
            return false;
        }
        if x == t {
            return true;
        }
        next = x;
        x = at(before, x);
    }
    false
}

#[tactic(auto, using(crate::proofs::Verdicts::free_finite))]
fn is_endless(
    alloc: Global,
    all: &[TypeDef],
    rank: &[usize],
    descending: bool,
    t: usize,
) -> Result<bool, AllocError>
    requires t { t < length all.now }
    requires descends { IsTrue descending → Descends all.now rank.now }
    ensures { IfOk result (λ b. b ≡ contains_itself all.now t) }
{
    if descending && parts_stay_below(&all[t], rank, at(rank, t)) {
        return Ok(false);
    }
    let way = way_around(alloc, all, rank, t)?;
    if leads_around(all, &way.before, way.last, t) {
        return Ok(true);
    }
    contains_itself_plainly(alloc, all, t)
}

/// The first, of the first so many definitions, that contains itself. Where all parts of a type have lower ranks than it, and no
/// part in the graph a higher one, it does not; else a way around is looked for among the types of its rank. The ranks may be any.
pub fn first_endless(
    alloc: Global,
    all: &[TypeDef],
    rank: &[usize],
    places: &[Listing<u32>],
    many: usize,
) -> Result<Option<TypeFault>, AllocError>
    requires { many ≤ length all.now }
    ensures { IfOk result (λ fault. fault ≡ first_unmet (each (endless_type all.now places.now) many 0)) }
{
    let descending = descends(all, rank);
    for t in 0..many {
        if is_endless(alloc, all, rank, descending, t)? {
            let place = place_of(places, t, 0);
            return Ok(Some(TypeFault::At {
                kind: TypeKind::EndlessType,
                place,
            }));
        }
    }
    Ok(None)
}
