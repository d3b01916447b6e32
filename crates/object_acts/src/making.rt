// Objects that are made.
ghost use Rattle.std.specs.Prelude.{◌≡◌, ◌+◌, ◌-◌, ◌^◌, ◌<◌, ◌≤◌, ◌∷◌, ◌++◌, [], IsSome, Some, IsSomeAnd, IfOk, IfErr, OnOk, OnErr, length, take, slice_get};
ghost use Rattle.typed_heap.specs.Objects.{object_of};
ghost use Rattle.typed_heap.specs.Heap.{AreNarrow};
ghost use Rattle.frames.specs.Chains.{stands};
ghost use Rattle.frames.specs.FrameOf.{frame_of};
ghost use Rattle.run_state.specs.Acting.{goes_on};
ghost use Rattle.object_acts.specs.Making.{graph_of, IsFull, leaves_made, result_made, frame_made};
ghost use Rattle.run_state.specs.Remembering.{initials};

use checked_code::Checked;
use frames::{Frame, Frames};
use mem_axioms::Memory;
use mu_values::{CellId, Scalar, Slots, Value};
use run_state::flow::{next_place, passing, stand};
use run_state::objects::MOST_OBJECTS;
use std::alloc::{AllocError, Global};
use typed_heap::{Heap, HeapFault};

/// How an object is made: of a type of fixed size, as a hybrid with so many elements, or as an object of the thread's top frame.
#[derive(Clone, Copy, Debug, PartialEq, Eq)]
pub enum Making {
    Object,
    Hybrid { many: u128 },
    Own,
}

/// The newest object of a heap, by its number, and how it was made.
#[derive(Clone, Copy)]
pub struct Newest<'a> {
    pub alloc: Global,
    pub heap: &'a Heap,
    pub number: u32,
    pub making: Making,
}

/// What the cells of an object begin with.
#[tactic(auto, using(run_state::specs::Remembering::scalars))]
fn initial_scalars(alloc: Global, heap: &Heap, object: u32) -> Result<Value, AllocError>
    requires { object < length heap.now.objects }
    ensures { IfOk result (λ value. IsSomeAnd (slice_get heap.now.objects object) (λ o. o.initial ≡ value.members)) }
{
    let mut value = Value::new(alloc);
    for at in 0..heap.size(object) {
        value.push(heap.initial(CellId { object, at }))?;
    }
    Ok(value)
}

/// A memory is told of the newest object of a heap.
#[tactic(auto, using(run_state::specs::Remembering::newest_known))]
fn remember<M: Memory>(newest: Newest, memory: &mut M) -> Result<(), AllocError>
    requires number { newest.number + 1 ≡ length newest.heap.now.objects }
    requires known { M.objects memory.old ≡ initials (take newest.number newest.heap.now.objects) }
    ensures ok { OnOk result (M.objects memory.new ≡ initials newest.entry.heap.now.objects) }
    ensures err { OnErr result (M.objects memory.new ≡ M.objects memory.old) }
    ensures log { M.log memory.new ≡ M.log memory.old }
    ensures rule { M.rule memory.new ≡ M.rule memory.old }
{
    memory.add_object(initial_scalars(newest.alloc, newest.heap, newest.number)?)
}

/// A memory is told of all objects of a heap. It is refused only when out of memory; then the memory may know some of them.
#[tactic(auto, using(run_state::specs::Remembering::remembering))]
pub fn remember_all<M: Memory>(alloc: Global, heap: &Heap, memory: &mut M) -> Result<(), AllocError>
    requires { M.objects memory.old ≡ [] }
    ensures objects { OnOk result (M.objects memory.new ≡ initials heap.now.objects) }
    ensures log { M.log memory.new ≡ M.log memory.old }
    ensures rule { M.rule memory.new ≡ M.rule memory.old }
{
    for object in 0..heap.objects() {
        memory.add_object(initial_scalars(alloc, heap, object)?)?;
    }
    Ok(())
}

/// Makes the next object of a type, and gives its number. It is refused when too few cells are left, and when out of memory; then the
/// heap is as before.
#[tactic(auto, using(crate::specs::ObjectLaws::made_there, crate::specs::ObjectLaws::full_so))]
pub fn new_object(
    heap: &mut Heap,
    code: &Checked,
    class: u32,
    making: Making,
) -> Result<u32, HeapFault>
    requires narrow { AreNarrow (graph_of code.now) }
    requires class { class < length (graph_of code.now) }
    ensures number { IfOk result (λ n. n ≡ length heap.old.objects) }
    ensures objects { OnOk result (heap.new.objects ≡ heap.old.objects ++ object_of (graph_of code.now) (leaves_made (graph_of code.now) class making) ∷ []) }
    ensures left { OnOk result (heap.new.left ≡ heap.old.left - length (leaves_made (graph_of code.now) class making)) }
    ensures enough { OnOk result (length (leaves_made (graph_of code.now) class making) ≤ heap.old.left) }
    ensures few_left { OnOk result (heap.old.left < 2 ^ 32) }
    ensures full { IfErr result (λ fault. IsFull fault (length (leaves_made (graph_of code.now) class making)) heap.old.left) }
    ensures err { OnErr result (heap.new ≡ heap.old) }
{
    if heap.objects() >= MOST_OBJECTS {
        return Err(HeapFault::Memory);
    }
    match making {
        Making::Hybrid { many } => heap.new_hybrid(code.classes(), class, many),
        Making::Object | Making::Own => heap.new_object(code.classes(), class),
    }
}

/// A memory gets to know the newest object, which the frame has for its own where it is made so. The frame's block and its variables, with
/// their room, stay, also when this is refused. It is refused only when out of memory; then the frame, and what the memory knows, are as
/// before.
fn tell<M: Memory>(newest: Newest, memory: &mut M, frame: &mut Frame) -> Result<(), AllocError>
    requires number { newest.number + 1 ≡ length newest.heap.now.objects }
    requires known { M.objects memory.old ≡ initials (take newest.number newest.heap.now.objects) }
    ensures frame { OnOk result (frame_of frame.new ≡ frame_made newest.entry.making (frame_of frame.old) newest.entry.number) }
    ensures ok { OnOk result (M.objects memory.new ≡ initials newest.entry.heap.now.objects) }
    ensures same { OnErr result (frame_of frame.new ≡ frame_of frame.old) }
    ensures block { frame.new.block ≡ frame.old.block }
    ensures slots { frame.new.slots ≡ frame.old.slots }
    ensures err { OnErr result (M.objects memory.new ≡ M.objects memory.old) }
    ensures log { M.log memory.new ≡ M.log memory.old }
    ensures rule { M.rule memory.new ≡ M.rule memory.old }
{
    match newest.making {
        Making::Own => {
            frame.cells.reserve(1)?;
            remember(newest, memory)?;
            frame.cells.push(newest.number)
        }
        Making::Object | Making::Hybrid { .. } => remember(newest, memory),
    }
}

/// What the instruction that made an object has for its result: the object, or the first place of one of the frame's own.
fn result_of(making: Making, number: u32) -> Scalar
    ensures { result ≡ result_made making number }
{
    match making {
        Making::Own => Scalar::Place {
            object: number,
            at: 0,
        },
        Making::Object | Making::Hybrid { .. } => Scalar::Object(number),
    }
}

/// A memory is told of the newest object, and the top frame stands at a place of its block with these results behind its own variables.
/// Where no memory is found the frames and the memory are as before.
fn give_next<M: Memory>(
    newest: Newest,
    memory: &mut M,
    frames: &mut Frames,
    at: u32,
    results: &Slots,
) -> Result<(), AllocError>
    requires number { newest.number + 1 ≡ length newest.heap.now.objects }
    requires known { M.objects memory.old ≡ initials (take newest.number newest.heap.now.objects) }
    ensures frames { OnOk result (frames.new ≡ record frames.old { top = stands (frame_made newest.entry.making frames.old.top newest.entry.number) frames.old.top.block at (frames.old.top.vars ++ results.now.values) }) }
    ensures ok { OnOk result (M.objects memory.new ≡ initials newest.entry.heap.now.objects) }
    ensures same { OnErr result (frames.new ≡ frames.old) }
    ensures err { OnErr result (M.objects memory.new ≡ M.objects memory.old) }
    ensures log { M.log memory.new ≡ M.log memory.old }
    ensures rule { M.rule memory.new ≡ M.rule memory.old }
{
    let frame = frames.top_mut();
    frame.slots.reserve_for(results)?;
    tell(newest, memory, frame)?;
    frame.stand_behind(at, results);
    Ok(())
}

/// The top frame's instruction has its result of the newest object, and a memory is told of it. Where no memory is found the frames and
/// the memory are as before; the lists may have changed.
#[tactic(auto, using(crate::specs::ObjectLaws::frames_made))]
pub fn give<M: Memory>(
    code: &Checked,
    newest: Newest,
    memory: &mut M,
    frames: &mut Frames,
    values: &mut Slots,
    out: &mut Slots,
) -> Result<(), AllocError>
    requires number { newest.number + 1 ≡ length newest.heap.now.objects }
    requires known { M.objects memory.old ≡ initials (take newest.number newest.heap.now.objects) }
    requires there { IsSome (goes_on code.now (frame_made newest.making frames.old.top newest.number) ((result_made newest.making newest.number ∷ []) ∷ [])) }
    ensures top { OnOk result (goes_on code.now (frame_made newest.entry.making frames.old.top newest.entry.number) ((result_made newest.entry.making newest.entry.number ∷ []) ∷ []) ≡ Some frames.new.top) }
    ensures below { frames.new.below ≡ frames.old.below }
    ensures ok { OnOk result (M.objects memory.new ≡ initials newest.entry.heap.now.objects) }
    ensures same { OnErr result (frames.new ≡ frames.old) }
    ensures err { OnErr result (M.objects memory.new ≡ M.objects memory.old) }
    ensures log { M.log memory.new ≡ M.log memory.old }
    ensures rule { M.rule memory.new ≡ M.rule memory.old }
{
    values.clear();
    values.push_scalar(result_of(newest.making, newest.number))?;
    if let Some(at) = next_place(code, frames.top()) {
        return give_next(newest, memory, frames, at, values);
    }
    let place = passing(code, frames.top(), values, out)?;
    tell(newest, memory, frames.top_mut())?;
    stand(frames, place, out);
    Ok(())
}
