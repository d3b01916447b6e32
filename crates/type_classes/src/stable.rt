// Whether a partition is stable.

ghost use Rattle.std.specs.Prelude.{◌≡◌, ℕ, ◌<◌, length, slice_index, slice_get, IsTrue};
ghost use Rattle.type_definitions.specs.Definition.{arguments};
ghost use Rattle.type_definitions.specs.Same.{pairs, agree_at};
ghost use Rattle.type_definitions.specs.Partition.{alike_by, IsStable};

use super::arguments::{are_alike, argument, arity};
use super::rows::at;
use type_definitions::TypeDef;

#[tactic(auto, using(crate::proofs::Pairs::pairs_uneven, crate::proofs::Pairs::pairs_step, crate::proofs::Pairs::pairs_end))]
fn pairs_agree(a: &TypeDef, b: &TypeDef, p: &[usize]) -> bool
    ensures { result ≡ pairs (alike_by p.now) (arguments a.now) (arguments b.now) }
{
    let n = arity(a);
    if n != arity(b) {
        return false;
    }
    for i in 0..n {
        if at(p, argument(a, i) as usize) != at(p, argument(b, i) as usize) {
            return false;
        }
    }
    true
}

pub fn agrees(definitions: &[TypeDef], p: &[usize], x: usize, y: usize) -> bool
    requires x { x < length definitions.now }
    requires y { y < length definitions.now }
    ensures { result ≡ agree_at (alike_by p.now) (slice_get definitions.now x) (slice_get definitions.now y) }
{
    let a = &definitions[x];
    let b = &definitions[y];
    are_alike(a, b) && pairs_agree(a, b, p)
}

pub fn is_stable(definitions: &[TypeDef], p: &[usize]) -> bool
    ensures { IsTrue result → IsStable definitions.now p.now }
{
    for x in 0..definitions.len() {
        let y = at(p, x);
        if y >= definitions.len() || !agrees(definitions, p, x, y) {
            return false;
        }
    }
    true
}
