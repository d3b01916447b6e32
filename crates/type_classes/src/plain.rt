// The classes by plain rounds.

ghost use Rattle.std.specs.Prelude.{◌≡◌, ℕ, suc, ◌<◌, length, slice_index, slice_get, vec_len, IfOk};
ghost use Rattle.type_definitions.specs.Same.{IsGraph};
ghost use Rattle.type_definitions.specs.Partition.{IsLeast};
ghost use Rattle.type_classes.specs.Rounds.{IsLeastTo, IsFirstTo};

use super::stable::agrees;
use std::alloc::{AllocError, Global};
use type_definitions::TypeDef;

fn first_like(definitions: &[TypeDef], p: &[usize], x: usize) -> usize
    requires { x < length definitions.now }
    ensures { IsFirstTo definitions.now p.now x result }
{
    for y in 0..x {
        if agrees(definitions, p, y, x) {
            return y;
        }
    }
    x
}

#[tactic(auto, using(crate::proofs::Rounds::round_is))]
fn round(alloc: Global, definitions: &[TypeDef], p: &[usize]) -> Result<Vec<usize>, AllocError>
    requires { IsGraph definitions.now }
    ensures len { IfOk result (λ v. vec_len v ≡ length definitions.now) }
    ensures steps { IfOk result (λ v. (k : ℕ) → IsLeastTo definitions.now k p.now → IsLeastTo definitions.now (suc k) v.items) }
{
    let mut all = Vec::new(alloc);
    for x in 0..definitions.len() {
        let y = first_like(definitions, p, x);
        all.push(y)?;
    }
    Ok(all)
}

pub fn plain(alloc: Global, definitions: &[TypeDef]) -> Result<Vec<usize>, AllocError>
    requires { IsGraph definitions.now }
    ensures len { IfOk result (λ v. vec_len v ≡ length definitions.now) }
    ensures classes { IfOk result (λ v. IsLeast definitions.now v.items) }
{
    let mut p = Vec::new(alloc);
    for x in 0..definitions.len() {
        p.push(0)?;
    }
    for round_number in 0..definitions.len() {
        p = round(alloc, definitions, &p)?;
    }
    Ok(p)
}
