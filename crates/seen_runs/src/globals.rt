// The globals of one cell.
ghost use Rattle.std.specs.Prelude.{◌≡◌, ◌≤◌, ◌<◌, ◌++◌, ◌∷◌, List, IfOk, length, drop};
ghost use Rattle.ir_tree.specs.declared.items.Item.{Item};
ghost use Rattle.run_texts.specs.EventTexts.{Text};
ghost use Rattle.seen_runs.specs.Seen.{global_names};
ghost use Rattle.seen_runs.specs.Finals.{finals_in};

use checked_code::Checked;
use ir_tree::Item;
use mu_values::{CellId, Scalar};
use std::alloc::{AllocError, Global};
use text_forms::Listing;
use typed_heap::Heap;

/// A global of one cell.
#[derive(Drop)]
pub struct Final {
    /// Its name, with the sigil.
    pub name: Listing<u8>,
    /// Its cell.
    pub cell: CellId,
    /// What the cell holds at the beginning.
    pub before: Scalar,
}

// Adds the global with that name, whose object has number n, where the object has one cell. The answer is the number of the next object.
#[tactic(auto, using(crate::proofs::Ends::globals))]
fn add_global(
    alloc: Global,
    found: &mut Vec<Final>,
    n: u32,
    name: &[u8],
    heap: &Heap,
) -> Result<u32, AllocError>
    requires { n ≤ length heap.now.objects }
    ensures within { IfOk result (λ m. m ≤ length heap.now.objects) }
    ensures added { IfOk result (λ m. (names : List Text) → found.new.items ++ finals_in m names (drop m heap.now.objects) ≡ found.old.items ++ finals_in n (name.now ∷ names) (drop n heap.now.objects)) }
{
    if n >= heap.objects() {
        return Ok(n);
    }
    if heap.size(n) == 1 {
        let cell = CellId { object: n, at: 0 };
        let name = Listing::from_slice(alloc, name)?;
        let before = heap.initial(cell);
        found.push(Final { name, cell, before })?;
    }
    Ok(n + 1)
}

// The same of an item, where that is a global.
fn add_item(
    alloc: Global,
    found: &mut Vec<Final>,
    n: u32,
    item: &Item,
    heap: &Heap,
) -> Result<u32, AllocError>
    requires { n ≤ length heap.now.objects }
    ensures within { IfOk result (λ m. m ≤ length heap.now.objects) }
    ensures added { IfOk result (λ m. (items : List Item) → found.new.items ++ finals_in m (global_names items) (drop m heap.now.objects) ≡ found.old.items ++ finals_in n (global_names (item.now ∷ items)) (drop n heap.now.objects)) }
{
    match item {
        Item::GlobalCell(global) => add_global(alloc, found, n, global.name.text.as_slice(), heap),
        _ => Ok(n),
    }
}

/// The globals of one cell, in text order, each with what its cell holds in this heap at the beginning. The first objects of the heap are
/// those of the globals. It is refused only when out of memory.
pub fn finals(alloc: Global, code: &Checked, heap: &Heap) -> Result<Vec<Final>, AllocError>
    ensures { IfOk result (λ found. found.items ≡ finals_in 0 (global_names code.now) heap.now.objects) }
{
    let mut found = Vec::new(alloc);
    let mut n = 0;
    let items = code.items();
    for item in items {
        n = add_item(alloc, &mut found, n, item, heap)?;
    }
    Ok(found)
}
