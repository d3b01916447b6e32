// Refines a partition of types until each block leads, place by place, into one block. This is Hopcroft's algorithm, by which finite
// automata are minimised: the blocks to part by wait in a worklist, and of the two parts of a block only the smaller is put there,
// unless the block waits already. So each type is looked at a logarithmic number of times. That the blocks keep the same types together
// is proved; sizes and the order of work decide how soon it ends, and need no proof.

ghost use Rattle.std.specs.Prelude.{◌≡◌, ℕ, ◌<◌, ◌^◌, Some, [], length, slice_index, slice_index_or, vec_len, OnOk, IfOk};
ghost use Rattle.type_definitions.specs.Same.{IsGraph};
ghost use Rattle.type_definitions.specs.Partition.{Keeps, arg};
ghost use Rattle.type_classes.specs.Targets.{TargetsFit};
ghost use Rattle.mu_types.specs.Rows.{lists};
ghost use Rattle.type_classes.specs.Blocks.{Listed};
ghost use Rattle.type_classes.specs.Leads.{IsClosed};
ghost use Rattle.type_classes.specs.Partitions.{IsFit, AreFilled, AreLinked};

use super::arguments::arity;
use super::blocks::{empty_rows, first_blocks, identity, list_members, widest};
use super::gather::{Links, gather};
use super::moves::move_all;
use super::preds::predecessors;
use super::rows::{at, clear_row, put};
use std::alloc::{AllocError, Global};
use type_definitions::TypeDef;

// past that many types or places the first blocks are as good as any: the edges are kept in 32 bits
const MOST: usize = u32::MAX as usize;

/// The types in blocks.
#[derive(Drop)]
pub struct Partition {
    /// The block of each type.
    pub block: Vec<usize>,
    /// The types of each block, and maybe some that left it.
    pub members: Vec<Vec<usize>>,
    /// The block that those types of each block move to that lead into the splitter; between two places each block's own number.
    pub target: Vec<usize>,
}

/// What is known of the blocks, and which still have to be looked at.
#[derive(Drop)]
pub struct Plan {
    /// The number of the next block that is made.
    pub next: usize,
    /// How many types each block has.
    pub sizes: Vec<usize>,
    /// How many types of each block lead into the splitter by the present place; 0 between two places.
    pub hits: Vec<usize>,
    /// 1 for each block that is in `work`.
    pub waiting: Vec<usize>,
    /// The worklist: the blocks that the others are still to be parted by.
    pub work: Vec<usize>,
    /// The blocks that the present place of the splitter parts; empty between two places.
    pub parents: Vec<usize>,
    /// Room for the blocks that types move to.
    pub goals: Vec<usize>,
}

#[tactic(auto, using(crate::proofs::Targets::target_set))]
fn aim(target: &mut [usize], b: usize, id: usize, n: usize)
    requires { TargetsFit target.old n }
    ensures { TargetsFit target.new n }
{
    if b < target.len() && id < n {
        target[b] = id;
    }
}

fn count_hits(block: &[usize], touched: &[usize], plan: &mut Plan) {
    for x in touched {
        let b = at(block, *x);
        let hits = at(&plan.hits, b);
        put(&mut plan.hits, b, hits.wrapping_add(1));
    }
}

fn choose(
    block: &[usize],
    touched: &[usize],
    target: &mut [usize],
    plan: &mut Plan,
    n: usize,
) -> Result<(), AllocError>
    requires { TargetsFit target.old n }
    ensures { TargetsFit target.new n }
{
    count_hits(block, touched, plan);
    for x in touched {
        let b = at(block, *x);
        let hits = at(&plan.hits, b);
        if at(target, b) == b && hits != 0 && hits < at(&plan.sizes, b) {
            let id = plan.next;
            plan.next = id.wrapping_add(1);
            aim(target, b, id, n);
            put(&mut plan.sizes, id, hits);
            plan.parents.push(b)?;
        }
        put(&mut plan.hits, b, 0);
    }
    Ok(())
}

fn settle(target: &mut [usize], plan: &mut Plan, n: usize) -> Result<(), AllocError>
    requires { TargetsFit target.old n }
    ensures { TargetsFit target.new n }
{
    while let Some(b) = plan.parents.pop() {
        let id = at(target, b);
        aim(target, b, b, n);
        let rest = at(&plan.sizes, b).wrapping_sub(at(&plan.sizes, id));
        put(&mut plan.sizes, b, rest);
        let small = if at(&plan.waiting, b) == 1 || at(&plan.sizes, id) <= rest {
            id
        } else {
            b
        };
        put(&mut plan.waiting, small, 1);
        plan.work.push(small)?;
    }
    Ok(())
}

// where no block is parted, nothing moves
#[tactic(auto, using(crate::proofs::Leads::moved_keeps))]
fn part(
    definitions: &[TypeDef],
    block: &mut [usize],
    members: &mut [Vec<usize>],
    touched: &[usize],
    target: &mut [usize],
    plan: &mut Plan,
) -> Result<(), AllocError>
    requires range { (k : ℕ) → k < length touched.now → slice_index touched.now k < length block.old }
    requires closed { IsClosed definitions.now touched.now }
    requires keeps { Keeps definitions.now block.old }
    requires listed { Listed block.old (lists members.old) }
    requires target { TargetsFit target.old (length members.old) }
    ensures keeps { OnOk result (Keeps definitions.now block.new) }
    ensures listed { OnOk result (Listed block.new (lists members.new)) }
    ensures target { OnOk result (TargetsFit target.new (length members.new)) }
{
    let n = members.len();
    choose(block, touched, target, plan, n)?;
    if plan.parents.is_empty() {
        return Ok(());
    }
    move_all(block, members, touched, target, &mut plan.goals)?;
    settle(target, plan, n)?;
    Ok(())
}

fn part_row(
    definitions: &[TypeDef],
    partition: &mut Partition,
    buckets: &mut [Vec<usize>],
    p: usize,
    plan: &mut Plan,
) -> Result<(), AllocError>
    requires p { p < length buckets.old }
    requires fit { IsFit definitions.now partition.old }
    requires filled { AreFilled definitions.now buckets.old }
    ensures fit { OnOk result (IsFit definitions.now partition.new) }
    ensures filled { OnOk result (AreFilled definitions.now buckets.new) }
{
    part(
        definitions,
        &mut partition.block,
        &mut partition.members,
        &buckets[p],
        &mut partition.target,
        plan,
    )?;
    clear_row(buckets, p);
    Ok(())
}

fn drain(
    definitions: &[TypeDef],
    partition: &mut Partition,
    buckets: &mut [Vec<usize>],
    places: &mut Vec<usize>,
    plan: &mut Plan,
) -> Result<(), AllocError>
    requires fit { IsFit definitions.now partition.old }
    requires filled { AreFilled definitions.now buckets.old }
    ensures fit { OnOk result (IsFit definitions.now partition.new) }
    ensures filled { OnOk result (AreFilled definitions.now buckets.new) }
{
    while let Some(p) = places.pop() {
        if p < buckets.len() {
            part_row(definitions, partition, buckets, p, plan)?;
        }
    }
    Ok(())
}

fn turn(
    links: Links,
    partition: &mut Partition,
    buckets: &mut [Vec<usize>],
    places: &mut Vec<usize>,
    s: usize,
    plan: &mut Plan,
) -> Result<(), AllocError>
    requires linked { AreLinked links.definitions.now links.predecessors.now }
    requires wide { (x k y : ℕ) → arg links.definitions.now x k ≡ Some y → k < length buckets.old }
    requires fit { IsFit links.definitions.now partition.old }
    requires filled { AreFilled links.definitions.now buckets.old }
    ensures fit { OnOk result (IsFit links.entry.definitions.now partition.new) }
    ensures filled { OnOk result (AreFilled links.entry.definitions.now buckets.new) }
{
    if s < partition.members.len() {
        gather(
            links,
            &partition.block,
            &partition.members[s],
            s,
            buckets,
            places,
        )?;
        drain(links.definitions, partition, buckets, places, plan)?;
    }
    Ok(())
}

fn work_off(
    alloc: Global,
    links: Links,
    partition: &mut Partition,
    buckets: &mut [Vec<usize>],
    plan: &mut Plan,
    fuel: usize,
) -> Result<(), AllocError>
    requires linked { AreLinked links.definitions.now links.predecessors.now }
    requires wide { (x k y : ℕ) → arg links.definitions.now x k ≡ Some y → k < length buckets.old }
    requires fit { IsFit links.definitions.now partition.old }
    requires filled { AreFilled links.definitions.now buckets.old }
    ensures { OnOk result (IsFit links.entry.definitions.now partition.new) }
{
    let mut places: Vec<usize> = Vec::new(alloc);
    for _ in 0..fuel {
        let Some(s) = plan.work.pop() else {
            break;
        };
        put(&mut plan.waiting, s, 0);
        turn(links, partition, buckets, &mut places, s, plan)?;
    }
    Ok(())
}

fn plan_for(alloc: Global, block: &[usize]) -> Result<Plan, AllocError> {
    let n = block.len();
    let mut sizes: Vec<usize> = Vec::new(alloc);
    let mut hits: Vec<usize> = Vec::new(alloc);
    let mut waiting: Vec<usize> = Vec::new(alloc);
    for _ in 0..n {
        sizes.push(0)?;
        hits.push(0)?;
        waiting.push(0)?;
    }
    let mut work: Vec<usize> = Vec::new(alloc);
    let mut next = 0;
    for b in block {
        let size = at(&sizes, *b);
        if size == 0 {
            work.push(*b)?;
            put(&mut waiting, *b, 1);
        }
        put(&mut sizes, *b, size.wrapping_add(1));
        if next <= *b {
            next = b.wrapping_add(1);
        }
    }
    let parents = Vec::new(alloc);
    let goals = Vec::new(alloc);
    Ok(Plan {
        next,
        sizes,
        hits,
        waiting,
        work,
        parents,
        goals,
    })
}

fn edges_of(definitions: &[TypeDef]) -> usize {
    let mut edges: usize = 0;
    for definition in definitions {
        edges = edges.saturating_add(arity(definition)).saturating_add(1);
    }
    edges
}

/// Blocks that keep the same types together, and mostly no others: more than 2^32 - 1 types or places are left in their first blocks.
pub fn refine(alloc: Global, definitions: &[TypeDef]) -> Result<Vec<usize>, AllocError>
    requires { IsGraph definitions.now }
    ensures len { IfOk result (λ v. vec_len v ≡ length definitions.now) }
    ensures keeps { IfOk result (λ v. Keeps definitions.now v.items) }
{
    let block = first_blocks(alloc, definitions)?;
    let width = widest(definitions);
    if definitions.is_empty() || definitions.len() > MOST || width > MOST {
        return Ok(block);
    }
    let members = list_members(alloc, &block)?;
    let target = identity(alloc, definitions.len())?;
    let buckets = empty_rows(alloc, width)?;
    let plan = plan_for(alloc, &block)?;
    let partition = Partition {
        block,
        members,
        target,
    };
    part_blocks(alloc, definitions, partition, buckets, plan)
}

fn part_blocks(
    alloc: Global,
    definitions: &[TypeDef],
    mut partition: Partition,
    mut buckets: Vec<Vec<usize>>,
    mut plan: Plan,
) -> Result<Vec<usize>, AllocError>
    requires graph { IsGraph definitions.now }
    requires fit { IsFit definitions.now partition }
    requires wide { (x k y : ℕ) → arg definitions.now x k ≡ Some y → k < vec_len buckets }
    requires empty { (x : ℕ) → slice_index_or (lists buckets.items) x [] ≡ [] }
    requires few { length definitions.now < 2 ^ 32 }
    requires narrow { vec_len buckets < 2 ^ 32 }
    ensures len { IfOk result (λ v. vec_len v ≡ length definitions.now) }
    ensures keeps { IfOk result (λ v. Keeps definitions.now v.items) }
{
    let preds = predecessors(alloc, definitions)?;
    let links = Links {
        definitions,
        predecessors: &preds,
    };
    let fuel = edges_of(definitions).saturating_mul(64);
    work_off(alloc, links, &mut partition, &mut buckets, &mut plan, fuel)?;
    let Partition { block, .. } = partition;
    Ok(block)
}
