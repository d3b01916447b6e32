// What a run begins with.
ghost use Rattle.std.specs.Prelude.{◌≡◌, ◌^◌, ◌<◌, ◌++◌, ◌∷◌, [], IsSome, IsSomeAnd, Some, IfOk, OnOk, length};
ghost use Rattle.type_definitions.specs.Same.{IsGraph};
ghost use Rattle.checked_code.specs.Checking.{bundle_tables};
ghost use Rattle.typed_heap.specs.Objects.{leaf_classes, object_of};
ghost use Rattle.typed_heap.specs.Heap.{AreNarrow};
ghost use Rattle.mu_model.specs.Run.{global_objects};
ghost use Rattle.model_numbers.specs.Numbered.{numbered};
ghost use Rattle.run_state.specs.Acting.{entered};
ghost use Rattle.run_start.specs.Starting.{HasFewPlaces, global_object};

use bundle_facts::{globals_are_types, widths_are_narrow};
use checked_code::Checked;
use client_hooks::Determined;
use frames::Frames;
use mem_axioms::Memory;
use mu_threads::Schedule;
use mu_types::{Classes, TypeDef};
use mu_values::Slots;
use run_state::objects::MOST_OBJECTS;
use run_state::waiting::entered;
use std::alloc::{AllocError, Global};
use typed_heap::Heap;

/// Adds the object of a global with the leaves of that type. It is refused when out of memory, and where the heap would have too many
/// objects; no clause says what the heap holds then.
fn add_object(classes: &Classes, t: u32, heap: &mut Heap) -> Result<(), AllocError>
    requires graph { IsGraph classes.now.definitions }
    requires narrow { AreNarrow classes.now.definitions }
    requires t { t < length classes.now.definitions }
    requires few { length (leaf_classes classes.now.definitions t) < 2 ^ 32 }
    ensures objects { OnOk result (heap.new.objects ≡ heap.old.objects ++ object_of classes.now.definitions (leaf_classes classes.now.definitions t) ∷ []) }
    ensures left { OnOk result (heap.new.left ≡ heap.old.left) }
{
    if heap.objects() >= MOST_OBJECTS {
        return Err(AllocError);
    }
    heap.add_global(classes, t)?;
    Ok(())
}

/// Adds the object of a global whose places have that class.
#[tactic(auto, using(crate::specs::Starting::irefs))]
fn add_global(classes: &Classes, class: u32, heap: &mut Heap) -> Result<(), AllocError>
    requires graph { IsGraph classes.now.definitions }
    requires narrow { AreNarrow classes.now.definitions }
    requires class { class < length classes.now.definitions }
    requires places { HasFewPlaces classes.now.definitions class }
    ensures objects { OnOk result (heap.new.objects ≡ heap.old.objects ++ global_object classes.now.definitions class ∷ []) }
    ensures left { OnOk result (heap.new.left ≡ heap.old.left) }
{
    match classes.definition(class) {
        TypeDef::Iref(t) => add_object(classes, *t, heap),
        _ => unreachable!(),
    }
}

/// A heap with the objects of the globals, in text order, in which so many cells may be made besides. It is refused when out of memory, and
/// where there would be more than the most objects of a heap. Then there is no heap.
#[tactic(auto, using(crate::specs::Starting::globals, crate::proofs::FewPlaces::have_few_places))]
pub fn first_heap(alloc: Global, code: &Checked, cells: u32) -> Result<Heap, AllocError>
    ensures objects { IfOk result (λ heap. heap.objects ≡ global_objects (bundle_tables code.now)) }
    ensures left { IfOk result (λ heap. heap.left ≡ cells) }
{
    let _items = code.items();
    widths_are_narrow();
    globals_are_types();
    let classes = code.classes();
    let mut heap = Heap::new(alloc, cells);
    for class in code.tables().global_cells.as_slice() {
        add_global(classes, *class, &mut heap)?;
    }
    Ok(heap)
}

/// The frames of a stack whose function begins with that block. They are refused only when out of memory.
pub fn first_frames(alloc: Global, block: u32) -> Result<Frames, AllocError>
    ensures top { IfOk result (λ frames. frames.top ≡ entered block []) }
    ensures below { IfOk result (λ frames. frames.below ≡ []) }
{
    match Frames::new(alloc, entered(alloc, block, Slots::new(alloc))) {
        Ok(frames) => Ok(frames),
        Err(_refused) => Err(AllocError),
    }
}

/// The first block of a function that has a body.
#[tactic(auto, using(crate::specs::Starting::first_blocks))]
pub fn first_block(code: &Checked, function: u32) -> u32
    requires { IsSomeAnd ((numbered code.now).body function) IsSome }
    ensures { (numbered code.now).body function ≡ Some (Some result) }
{
    match code.function(function).first {
        None => unreachable!(),
        Some(block) => block,
    }
}

/// What a run begins with beside its function.
#[derive(Drop)]
pub struct RunInputs<M: Memory, C: Determined> {
    /// The objects that are there, and how many cells may be made besides.
    pub heap: Heap,
    /// It knows nothing yet, and brings the rule of release sequences.
    pub memory: M,
    /// What answers at traps.
    pub client: C,
    /// The numbers that choose threads and values.
    pub picks: Schedule,
    /// How many steps may be made.
    pub budget: u32,
}
