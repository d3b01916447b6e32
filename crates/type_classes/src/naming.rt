// The classes.

ghost use Rattle.std.specs.Prelude.{◌≡◌, ℕ, ◌+◌, ◌<◌, ◌≤◌, length, slice_index, vec_len, IfOk};
ghost use Rattle.type_definitions.specs.Same.{IsGraph};
ghost use Rattle.type_definitions.specs.Partition.{IsLeast, Keeps};
ghost use Rattle.type_classes.specs.Names.{NamesLeast, FirstsSoFar};

use super::plain::plain;
use super::rows::at;
use super::stable::is_stable;
use std::alloc::{AllocError, Global};
use type_definitions::TypeDef;

#[tactic(auto, using(crate::proofs::Names::first_met, crate::proofs::Names::first_kept, crate::proofs::Names::first_least))]
fn meet(first: &mut Vec<usize>, block: &[usize], x: usize) -> usize
    requires x { x < length block.now }
    requires firsts { FirstsSoFar block.now first.old.items x }
    ensures firsts { FirstsSoFar block.now first.new.items (x + 1) }
    ensures low { result ≤ x }
    ensures least { (b : ℕ) → b < x → slice_index block.now b ≡ slice_index block.now x → result ≤ b }
{
    let b = block[x];
    if b < first.len() && first[b] > x {
        first[b] = x;
        return x;
    }
    at(first, b)
}

fn name_by_least(alloc: Global, block: &[usize], blocks: usize) -> Result<Vec<usize>, AllocError>
    ensures len { IfOk result (λ v. vec_len v ≡ length block.now) }
    ensures names { IfOk result (λ v. NamesLeast block.now v.items (length block.now)) }
{
    let mut first: Vec<usize> = Vec::new(alloc);
    for _ in 0..blocks {
        first.push(block.len())?;
    }
    let mut all: Vec<usize> = Vec::new(alloc);
    for x in 0..block.len() {
        let least = meet(&mut first, block, x);
        all.push(least)?;
    }
    Ok(all)
}

/// The classes by a partition that keeps the same types together, however it was found.
#[tactic(auto, using(type_definitions::specs::Lemmas::Partition::least_from))]
pub fn classes_by(
    alloc: Global,
    definitions: &[TypeDef],
    block: &[usize],
    blocks: usize,
) -> Result<Vec<usize>, AllocError>
    requires graph { IsGraph definitions.now }
    requires keeps { Keeps definitions.now block.now }
    requires len { length block.now ≡ length definitions.now }
    ensures len { IfOk result (λ v. vec_len v ≡ length definitions.now) }
    ensures classes { IfOk result (λ v. IsLeast definitions.now v.items) }
{
    let class = name_by_least(alloc, block, blocks)?;
    if is_stable(definitions, &class) {
        return Ok(class);
    }
    plain(alloc, definitions)
}
