// The arguments, seen from where they lead.

ghost use Rattle.std.specs.Prelude.{◌≡◌, ℕ, ◌<◌, ◌≤◌, ◌^◌, ◌⊎◌, Some, length, slice_get, IfOk, OnOk};
ghost use Rattle.type_definitions.specs.Same.{IsGraph};
ghost use Rattle.type_definitions.specs.Partition.{arg};
ghost use Rattle.mu_types.specs.Rows.{lists, Holds};
ghost use Rattle.type_classes.specs.declared.edges.Edge.{Edge};
ghost use Rattle.type_classes.specs.Edges.{edge_of};
ghost use Rattle.type_classes.specs.Leads.{IsBackward, IsForward};

use super::arguments::{argument, arity};
use super::edges::Edge;
use super::rows::{at, push_to, put};
use std::alloc::{AllocError, Global};
use type_definitions::TypeDef;

fn add_edges(definitions: &[TypeDef], x: usize, preds: &mut [Vec<Edge>]) -> Result<(), AllocError>
    requires graph { IsGraph definitions.now }
    requires x { x < length definitions.now }
    requires preds { length preds.old ≡ length definitions.now }
    requires few { length definitions.now < 2 ^ 32 }
    requires narrow { (x k y : ℕ) → arg definitions.now x k ≡ Some y → k < 2 ^ 32 }
    ensures len { length preds.new ≡ length preds.old }
    ensures kept { OnOk result ((y : ℕ) (e : Edge) → Holds (lists preds.old) y e → Holds (lists preds.new) y e) }
    ensures there { OnOk result ((k y : ℕ) → arg definitions.now x k ≡ Some y → Holds (lists preds.new) y (edge_of k x)) }
    ensures sound { OnOk result (IsForward definitions.now (lists preds.old) → IsForward definitions.now (lists preds.new)) }
{
    let definition = &definitions[x];
    for k in 0..arity(definition) {
        push_to(
            preds,
            argument(definition, k) as usize,
            Edge {
                place: k as u32,
                from: x as u32,
            },
        )?;
    }
    Ok(())
}

// how many arguments lead to each type
fn degrees(alloc: Global, definitions: &[TypeDef]) -> Result<Vec<usize>, AllocError> {
    let mut degrees: Vec<usize> = Vec::new(alloc);
    for _ in 0..definitions.len() {
        degrees.push(0)?;
    }
    for definition in definitions {
        for k in 0..arity(definition) {
            let y = argument(definition, k) as usize;
            let degree = at(&degrees, y);
            put(&mut degrees, y, degree.wrapping_add(1));
        }
    }
    Ok(degrees)
}

/// For each type the arguments that lead to it, and no others.
pub fn predecessors(alloc: Global, definitions: &[TypeDef]) -> Result<Vec<Vec<Edge>>, AllocError>
    requires graph { IsGraph definitions.now }
    requires few { length definitions.now < 2 ^ 32 }
    requires narrow { (x k y : ℕ) → arg definitions.now x k ≡ Some y → k < 2 ^ 32 }
    ensures back { IfOk result (λ v. IsBackward definitions.now (lists v.items)) }
    ensures forward { IfOk result (λ v. IsForward definitions.now (lists v.items)) }
{
    let degrees = degrees(alloc, definitions)?;
    let mut preds: Vec<Vec<Edge>> = Vec::with_capacity(alloc, definitions.len())?;
    for y in 0..definitions.len() {
        preds.push(Vec::with_capacity(alloc, at(&degrees, y))?)?;
    }
    for x in 0..definitions.len() {
        add_edges(definitions, x, &mut preds)?;
    }
    Ok(preds)
}
