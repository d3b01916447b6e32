// An order of the types in which parts come before their wholes, as far as there is one. It is only proposed here, by the
// numbers of the strongly connected parts of the graph: whoever uses it tests it.
ghost use Rattle.std.specs.Prelude.{◌≡◌, ℕ, ◌<◌, ◌≤◌, length, slice_get, slice_index, vec_len, IsTrue, IfOk};
ghost use Rattle.std.specs.List.{All};
ghost use Rattle.type_definitions.specs.Parts.{parts};
ghost use Rattle.type_definitions.specs.Ranks.{Descends, AreRanked};
ghost use Rattle.type_classes.specs.Ordered.{IsOrder};

use super::endless::{part, part_count};
use super::rows::{at, put};
use std::alloc::{AllocError, Global};
use type_definitions::TypeDef;

// ranks are given from 1 on while the search runs: 0 is none yet
#[derive(Drop)]
struct Search {
    visited: usize,
    ranked: usize,
    index: Vec<usize>,
    low: Vec<usize>,
    rank: Vec<usize>,
    asked: Vec<usize>,
    open: Vec<usize>,
    path: Vec<usize>,
}

fn zeros(alloc: Global, many: usize) -> Result<Vec<usize>, AllocError> {
    let mut all = Vec::new(alloc);
    for _ in 0..many {
        all.push(0)?;
    }
    Ok(all)
}

fn begin(search: &mut Search, x: usize) -> Result<(), AllocError> {
    search.visited = search.visited.wrapping_add(1);
    put(&mut search.index, x, search.visited);
    put(&mut search.low, x, search.visited);
    search.open.push(x)?;
    search.path.push(x)?;
    Ok(())
}

fn lower(low: &mut [usize], x: usize, to: usize) {
    if to < at(low, x) {
        put(low, x, to);
    }
}

fn close(search: &mut Search, x: usize) {
    if at(&search.low, x) == at(&search.index, x) {
        search.ranked = search.ranked.wrapping_add(1);
        let rank = search.ranked;
        while let Some(y) = search.open.pop() {
            put(&mut search.rank, y, rank);
            if y == x {
                break;
            }
        }
    }
    let to = at(&search.low, x);
    let above = search.path.len();
    if 0 < above {
        let whole = search.path[above - 1];
        lower(&mut search.low, whole, to);
    }
}

fn step(search: &mut Search, definition: &TypeDef, x: usize) -> Result<(), AllocError> {
    let k = at(&search.asked, x);
    if k >= part_count(definition) {
        close(search, x);
        return Ok(());
    }
    put(&mut search.asked, x, k.wrapping_add(1));
    search.path.push(x)?;
    let p = part(definition, k);
    let index = at(&search.index, p);
    if index == 0 {
        begin(search, p)?;
    } else if at(&search.rank, p) == 0 {
        lower(&mut search.low, x, index);
    }
    Ok(())
}

fn search_from(
    all: &[TypeDef],
    search: &mut Search,
    root: usize,
    fuel: usize,
) -> Result<(), AllocError> {
    begin(search, root)?;
    for _ in 0..fuel {
        let Some(x) = search.path.pop() else {
            break;
        };
        if x < all.len() {
            step(search, &all[x], x)?;
        }
    }
    Ok(())
}

/// A rank for each type.
pub fn arrange(alloc: Global, all: &[TypeDef]) -> Result<Vec<usize>, AllocError> {
    let n = all.len();
    let mut search = Search {
        visited: 0,
        ranked: 0,
        index: zeros(alloc, n)?,
        low: zeros(alloc, n)?,
        rank: zeros(alloc, n)?,
        asked: zeros(alloc, n)?,
        open: Vec::new(alloc),
        path: Vec::new(alloc),
    };
    for root in 0..n {
        if at(&search.index, root) == 0 {
            search_from(all, &mut search, root, usize::MAX)?;
        }
    }
    let mut ranks = Vec::new(alloc);
    for x in 0..n {
        ranks.push(at(&search.rank, x).wrapping_sub(1))?;
    }
    Ok(ranks)
}

/// Whether each part has a rank below that one.
pub fn parts_stay_below(definition: &TypeDef, rank: &[usize], top: usize) -> bool
    ensures { IsTrue result → All (λ p. slice_index rank.now p < top) (parts definition.now) }
{
    for k in 0..part_count(definition) {
        if at(rank, part(definition, k)) >= top {
            return false;
        }
    }
    true
}

fn parts_stay_within(definition: &TypeDef, rank: &[usize], top: usize) -> bool
    ensures { IsTrue result → All (λ p. slice_index rank.now p ≤ top) (parts definition.now) }
{
    for k in 0..part_count(definition) {
        if at(rank, part(definition, k)) > top {
            return false;
        }
    }
    true
}

/// Whether no part has a higher rank than its whole.
pub fn descends(all: &[TypeDef], rank: &[usize]) -> bool
    ensures { IsTrue result → Descends all.now rank.now }
{
    for x in 0..all.len() {
        if !parts_stay_within(&all[x], rank, at(rank, x)) {
            return false;
        }
    }
    true
}

/// The types by rank: the last with each rank.
pub fn order_of(alloc: Global, rank: &[usize]) -> Result<Vec<usize>, AllocError> {
    let mut order = zeros(alloc, rank.len())?;
    for x in 0..rank.len() {
        put(&mut order, rank[x], x);
    }
    Ok(order)
}

/// Whether each type has a rank of its own, below the number of types, and each part a lower one than its whole.
pub fn is_ordered(all: &[TypeDef], rank: &[usize], order: &[usize]) -> bool
    ensures ranked { IsTrue result → AreRanked all.now rank.now }
    ensures order { IsTrue result → IsOrder (length all.now) rank.now order.now }
{
    for x in 0..all.len() {
        let r = at(rank, x);
        if r >= all.len() || at(order, r) != x || !parts_stay_below(&all[x], rank, r) {
            return false;
        }
    }
    true
}
