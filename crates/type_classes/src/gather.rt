// Which types lead into a block, by place.

ghost use Rattle.std.specs.Prelude.{◌≡◌, ℕ, ◌<◌, ◌↔◌, ◌⊎◌, Some, length, map, slice_index, slice_get, IfOk, OnOk, IsTrue};
ghost use Rattle.std.specs.List.{All, Contains};
ghost use Rattle.type_definitions.specs.Partition.{arg};
ghost use Rattle.mu_types.specs.Rows.{lists, Holds};
ghost use Rattle.type_classes.specs.declared.edges.Edge.{Edge};
ghost use Rattle.type_classes.specs.Edges.{edge_of};
ghost use Rattle.type_classes.specs.Leads.{LeadsTo, IsForward};

use super::edges::Edge;
use super::rows::{at, push_to};
use std::alloc::AllocError;
use type_definitions::TypeDef;

/// The definitions, and for each type the arguments that lead to it.
#[derive(Clone, Copy)]
pub struct Links<'a> {
    /// The definition of each type.
    pub definitions: &'a [TypeDef],
    /// The arguments that lead to each type.
    pub predecessors: &'a [Vec<Edge>],
}

#[tactic(auto, using(crate::proofs::RowLemmas::pushed_kept, crate::proofs::RowLemmas::pushed_there, crate::proofs::RowLemmas::pushed_only))]
fn gather_edge(
    definitions: &[TypeDef],
    edge: Edge,
    y: usize,
    buckets: &mut [Vec<usize>],
    places: &mut Vec<usize>,
) -> Result<(), AllocError>
    requires { arg definitions.now edge.from edge.place ≡ Some y }
    ensures len { length buckets.new ≡ length buckets.old }
    ensures kept { OnOk result ((k x : ℕ) → Holds (lists buckets.old) k x → Holds (lists buckets.new) k x) }
    ensures there { OnOk result (edge.place < length buckets.old → Holds (lists buckets.new) edge.place edge.from) }
    ensures sound { OnOk result ((k x : ℕ) → Holds (lists buckets.new) k x → Holds (lists buckets.old) k x ⊎ (arg definitions.now x k ≡ Some y)) }
{
    let place = edge.place as usize;
    if place >= buckets.len() {
        return Ok(());
    }
    if buckets[place].is_empty() {
        places.push(place)?;
    }
    push_to(buckets, place, edge.from as usize)?;
    Ok(())
}

fn gather_one(
    definitions: &[TypeDef],
    edges: &[Edge],
    y: usize,
    buckets: &mut [Vec<usize>],
    places: &mut Vec<usize>,
) -> Result<(), AllocError>
    requires { (e : Edge) → Contains edges.now e → arg definitions.now e.from e.place ≡ Some y }
    ensures len { length buckets.new ≡ length buckets.old }
    ensures kept { OnOk result ((k x : ℕ) → Holds (lists buckets.old) k x → Holds (lists buckets.new) k x) }
    ensures complete { OnOk result ((k x : ℕ) → k < length buckets.old → Contains edges.now (edge_of k x) → Holds (lists buckets.new) k x) }
    ensures sound { OnOk result ((k x : ℕ) → Holds (lists buckets.new) k x → Holds (lists buckets.old) k x ⊎ (arg definitions.now x k ≡ Some y)) }
{
    for i in 0..edges.len() {
        gather_edge(definitions, edges[i], y, buckets, places)?;
    }
    Ok(())
}

/// All that lead into the block s, whose list is `row`.
pub fn gather(
    links: Links,
    block: &[usize],
    row: &[usize],
    s: usize,
    buckets: &mut [Vec<usize>],
    places: &mut Vec<usize>,
) -> Result<(), AllocError>
    requires { IsForward links.definitions.now (lists links.predecessors.now) }
    ensures len { length buckets.new ≡ length buckets.old }
    ensures kept { OnOk result ((k x : ℕ) → Holds (lists buckets.old) k x → Holds (lists buckets.new) k x) }
    ensures complete { OnOk result ((k x y : ℕ) → k < length buckets.old → Contains row.now y → slice_index block.now y ≡ s → Holds (lists links.entry.predecessors.now) y (edge_of k x) → Holds (lists buckets.new) k x) }
    ensures sound { OnOk result ((k x : ℕ) → Holds (lists buckets.new) k x → Holds (lists buckets.old) k x ⊎ LeadsTo links.entry.definitions.now block.now s x k) }
{
    for i in 0..row.len() {
        let y = row[i];
        gather_member(links, block, y, s, buckets, places)?;
    }
    Ok(())
}

fn gather_member(
    links: Links,
    block: &[usize],
    y: usize,
    s: usize,
    buckets: &mut [Vec<usize>],
    places: &mut Vec<usize>,
) -> Result<(), AllocError>
    requires { IsForward links.definitions.now (lists links.predecessors.now) }
    ensures len { length buckets.new ≡ length buckets.old }
    ensures kept { OnOk result ((k x : ℕ) → Holds (lists buckets.old) k x → Holds (lists buckets.new) k x) }
    ensures complete { OnOk result ((k x : ℕ) → k < length buckets.old → slice_index block.now y ≡ s → Holds (lists links.entry.predecessors.now) y (edge_of k x) → Holds (lists buckets.new) k x) }
    ensures sound { OnOk result ((k x : ℕ) → Holds (lists buckets.new) k x → Holds (lists buckets.old) k x ⊎ LeadsTo links.entry.definitions.now block.now s x k) }
{
    if y < links.predecessors.len() && at(block, y) == s {
        gather_one(
            links.definitions,
            &links.predecessors[y],
            y,
            buckets,
            places,
        )?;
    }
    Ok(())
}
