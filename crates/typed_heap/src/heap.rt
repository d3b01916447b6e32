// Making objects, and what becomes of them.
ghost use Rattle.std.specs.Prelude.{◌≡◌, ◌+◌, ◌-◌, ◌*◌, ◌^◌, ◌<◌, ◌≤◌, min, Some, Err, [], ◌∷◌, ◌++◌, length, take, slice_get, slice_set, IfOk, IfErr, IfSome, OnOk, OnErr, IsSomeAnd};
ghost use Rattle.std.specs.List.{All};
ghost use Rattle.type_definitions.specs.Leaves.{times};
ghost use Rattle.type_definitions.specs.Same.{IsGraph};
ghost use Rattle.typed_heap.specs.Objects.{leaf_classes, run_classes, object_of, killed, with_filled};
ghost use Rattle.typed_heap.specs.Heap.{hybrid_classes, told_cells, newest_cells, AreNarrow};

use crate::faults::HeapFault;
use crate::objects::Objects;
use mu_types::{Classes, TypeDef};
use mu_values::{CellId, Scalar};
use std::alloc::{AllocError, Global};
use std::marker::Model;

/// The objects of a run, numbered from 0 in the order in which they are made, and how many cells may still be made. Contracts see
/// both, and `spare`, the number of initial scalars that `set_all` takes.
///
/// A cell takes 20 bytes, and an object 32 besides; a cell that was given an initial scalar takes 32 more. It keeps its allocator, so only
/// `new` asks for one. A call that finds no memory leaves all as it was.
#[derive(Drop)]
pub struct Heap {
    pub(crate) objects: Objects,
    left: u32,
}

impl Model for Heap {
    ghost use Rattle.typed_heap.specs.Heap.{HeapContents};

    ghost Value = { HeapContents };

    ghost view = { λ h. record { objects = h.objects.objects; left = h.left; spare = h.objects.spare } };
}

impl Heap {
    /// A heap without objects, with so many cells left. It takes no memory yet.
    pub fn new(alloc: Global, limit: u32) -> Heap
        ensures objects { result.objects ≡ [] }
        ensures left { result.left ≡ limit }
    {
        Heap {
            objects: Objects::new(alloc),
            left: limit,
        }
    }

    /// Makes a global: the next object, with the leaves of a type. Its cells do not count.
    pub fn add_global(&mut self, classes: &Classes, t: u32) -> Result<u32, AllocError>
        requires graph { IsGraph classes.now.definitions }
        requires narrow { AreNarrow classes.now.definitions }
        requires t { t < length classes.now.definitions }
        requires small { length (leaf_classes classes.now.definitions t) < 2 ^ 32 }
        requires few { length self.old.objects + 1 < 2 ^ 32 - 1 }
        ensures number { IfOk result (λ n. n ≡ length self.old.objects) }
        ensures objects { OnOk result (self.new.objects ≡ self.old.objects ++ object_of classes.now.definitions (leaf_classes classes.now.definitions t) ∷ []) }
        ensures left { self.new.left ≡ self.old.left }
        ensures spare { self.new.spare ≡ self.old.spare }
        ensures err { OnErr result (self.new ≡ self.old) }
    {
        let number = self.objects.len();
        self.objects.push(classes, classes.leaves(t), &[], 0)?;
        Ok(number)
    }

    /// Makes the next object, with the leaves of a type; of a hybrid it has the fixed ones. It is refused as full exactly where more
    /// cells are asked than are left. It takes time and memory for its cells.
    pub fn new_object(&mut self, classes: &Classes, t: u32) -> Result<u32, HeapFault>
        requires graph { IsGraph classes.now.definitions }
        requires narrow { AreNarrow classes.now.definitions }
        requires t { t < length classes.now.definitions }
        requires few { length self.old.objects + 1 < 2 ^ 32 - 1 }
        ensures number { IfOk result (λ n. n ≡ length self.old.objects) }
        ensures objects { OnOk result (self.new.objects ≡ self.old.objects ++ object_of classes.now.definitions (leaf_classes classes.now.definitions t) ∷ []) }
        ensures left { OnOk result (self.new.left + length (leaf_classes classes.now.definitions t) ≡ self.old.left) }
        ensures few_left { self.old.left < 2 ^ 32 }
        ensures spare { self.new.spare ≡ self.old.spare }

        // Full is answered where more cells are asked than are left, and only there.
        ensures full { self.old.left < length (leaf_classes classes.now.definitions t) → result ≡ Err (HeapFault.HeapFull (told_cells (length (leaf_classes classes.now.definitions t))) self.old.left) }
        ensures enough { length (leaf_classes classes.now.definitions t) ≤ self.old.left → IfErr result (λ fault. fault ≡ HeapFault.Memory) }
        ensures err { OnErr result (self.new ≡ self.old) }
    {
        self.add(classes, classes.leaves(t), &[], 0)
    }

    /// Makes the next object of a hybrid, with so many elements behind its fixed fields; of another type it has no elements. It is
    /// refused as full exactly where more cells are asked than are left. It takes time and memory for its cells.
    pub fn new_hybrid(&mut self, classes: &Classes, t: u32, many: u128) -> Result<u32, HeapFault>
        requires graph { IsGraph classes.now.definitions }
        requires narrow { AreNarrow classes.now.definitions }
        requires t { t < length classes.now.definitions }
        requires few { length self.old.objects + 1 < 2 ^ 32 - 1 }
        ensures number { IfOk result (λ n. n ≡ length self.old.objects) }
        ensures objects { OnOk result (self.new.objects ≡ self.old.objects ++ object_of classes.now.definitions (hybrid_classes classes.now.definitions t many) ∷ []) }
        ensures left { OnOk result (self.new.left + length (hybrid_classes classes.now.definitions t many) ≡ self.old.left) }
        ensures few_left { self.old.left < 2 ^ 32 }
        ensures spare { self.new.spare ≡ self.old.spare }

        // Full is answered where more cells are asked than are left, and only there.
        ensures full { self.old.left < length (hybrid_classes classes.now.definitions t many) → result ≡ Err (HeapFault.HeapFull (told_cells (length (hybrid_classes classes.now.definitions t many))) self.old.left) }
        ensures enough { length (hybrid_classes classes.now.definitions t many) ≤ self.old.left → IfErr result (λ fault. fault ≡ HeapFault.Memory) }
        ensures err { OnErr result (self.new ≡ self.old) }
    {
        self.add(classes, classes.leaves(t), run_of(classes, t), many)
    }

    /// Adds an object with these leaves, the second list that many times over, where so many cells are left.
    fn add(
        &mut self,
        classes: &Classes,
        fixed: &[u32],
        run: &[u32],
        many: u128,
    ) -> Result<u32, HeapFault>
        requires narrow { AreNarrow classes.now.definitions }
        requires leaves { All (λ c. c < length classes.now.definitions) (fixed.now ++ times many run.now) }
        requires few { length self.old.objects + 1 < 2 ^ 32 - 1 }
        ensures number { IfOk result (λ n. n ≡ length self.old.objects) }
        ensures objects { OnOk result (self.new.objects ≡ self.old.objects ++ object_of classes.now.definitions (fixed.now ++ times many run.now) ∷ []) }
        ensures left { OnOk result (self.new.left + length (fixed.now ++ times many run.now) ≡ self.old.left) }
        ensures few_left { self.old.left < 2 ^ 32 }
        ensures spare { self.new.spare ≡ self.old.spare }
        ensures full { self.old.left < length (fixed.now ++ times many run.now) → result ≡ Err (HeapFault.HeapFull (told_cells (length (fixed.now ++ times many run.now))) self.old.left) }
        ensures enough { length (fixed.now ++ times many run.now) ≤ self.old.left → IfErr result (λ fault. fault ≡ HeapFault.Memory) }
        ensures err { OnErr result (self.new ≡ self.old) }
    {
        let asked = cells_asked(fixed, run, many);
        let left = self.left;
        if asked > u128::from(left) {
            return Err(HeapFault::HeapFull { asked, left });
        }
        let number = self.objects.len();
        self.objects.push(classes, fixed, run, repeats(run, many))?;
        self.left = left - asked as u32;
        Ok(number)
    }

    /// The cells of an object are dead from now on: a place in them stays a value, and no cell is found there.
    pub fn end_cells(&mut self, object: u32)
        requires { object < length self.old.objects }
        ensures objects { IfSome (slice_get self.old.objects object) (λ o. self.new.objects ≡ slice_set self.old.objects object (killed o)) }
        ensures left { self.new.left ≡ self.old.left }
        ensures spare { self.new.spare ≡ self.old.spare }
    {
        self.objects.kill(object);
    }

    /// Takes back the newest object, made by `new_object` or `new_hybrid`: it is gone, and its cells are left again. No cell may
    /// hold it or a place in it. It takes no memory.
    pub fn take_back(&mut self)
        requires some { 0 < length self.old.objects }
        requires left { self.old.left + newest_cells self.old.objects < 2 ^ 32 }
        ensures objects { self.new.objects ≡ take (length self.old.objects - 1) self.old.objects }
        ensures left { self.new.left ≡ self.old.left + newest_cells self.old.objects }
        ensures spare { self.new.spare ≡ self.old.spare }
    {
        let newest = self.objects.len() - 1;
        let cells = self.objects.size(newest);
        self.objects.pop();
        self.left += cells;
    }

    /// Makes room for so many initial scalars. A refusal leaves the objects as they were.
    pub fn reserve(&mut self, more: usize) -> Result<(), AllocError>
        ensures objects { self.new.objects ≡ self.old.objects }
        ensures left { self.new.left ≡ self.old.left }
        ensures room { OnOk result (more ≤ self.new.spare) }
        ensures spare { self.old.spare ≤ self.new.spare }
    {
        self.objects.reserve(more)
    }

    /// Gives cells of an object their initial scalars, from a cell on, into room that is there. It takes constant time for each, and no
    /// memory.
    pub fn set_all(&mut self, cell: CellId, scalars: &[Scalar])
        requires there { IsSomeAnd (slice_get self.old.objects cell.object) (λ o. cell.at + length scalars.now ≤ length o.leaves) }
        requires room { length scalars.now ≤ self.old.spare }
        ensures objects { self.new.objects ≡ with_filled self.old.objects cell.object cell.at scalars.now (slice_get self.old.objects cell.object) }
        ensures left { self.new.left ≡ self.old.left }
        ensures spare { self.old.spare ≤ self.new.spare + length scalars.now }
    {
        self.objects.give_all(cell.object, cell.at, scalars);
    }

    /// What a cell begins with, in constant time.
    pub fn initial(&self, cell: CellId) -> Scalar
        requires { IsSomeAnd (slice_get self.now.objects cell.object) (λ o. cell.at < length o.leaves) }
        ensures { IsSomeAnd (slice_get self.now.objects cell.object) (λ o. slice_get o.initial cell.at ≡ Some result) }
    {
        self.objects.initial(cell.object, cell.at)
    }

    /// How many objects there are.
    pub fn objects(&self) -> u32
        ensures { result ≡ length self.now.objects }
    {
        self.objects.len()
    }

    /// How many cells an object has: one for each leaf, with one scalar that each begins with.
    pub fn size(&self, object: u32) -> u32
        requires { object < length self.now.objects }
        ensures leaves { IsSomeAnd (slice_get self.now.objects object) (λ o. length o.leaves ≡ result) }
        ensures initials { IsSomeAnd (slice_get self.now.objects object) (λ o. length o.initial ≡ result) }
    {
        self.objects.size(object)
    }
}

/// The classes of the leaves of a hybrid's element; none for another type.
fn run_of(classes: &Classes, t: u32) -> &[u32]
    requires graph { IsGraph classes.now.definitions }
    requires t { t < length classes.now.definitions }
    ensures { result.now ≡ run_classes classes.now.definitions t }
{
    match classes.definition(t) {
        TypeDef::Hybrid { element, .. } => classes.leaves(*element),
        _ => &[],
    }
}

/// How many cells these leaves are, 2^128 - 1 standing for every greater number.
fn cells_asked(fixed: &[u32], run: &[u32], many: u128) -> u128
    ensures { result ≡ told_cells (length (fixed.now ++ times many run.now)) }
{
    many.saturating_mul(run.len() as u128)
        .saturating_add(fixed.len() as u128)
}

/// How often a list is to be repeated: an empty one not at all.
fn repeats(run: &[u32], many: u128) -> usize
    requires { length (times many run.now) < 2 ^ 64 }
    ensures { times result run.now ≡ times many run.now }
{
    if run.is_empty() { 0 } else { many as usize }
}
