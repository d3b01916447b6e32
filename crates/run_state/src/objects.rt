// How many objects there may be, and frames that end with theirs.
ghost use Rattle.std.specs.Prelude.{◌≡◌, ◌<◌, length, take, drop};
ghost use Rattle.std.specs.List.{flat_map};
ghost use Rattle.frames.specs.Activations.{Activation};
ghost use Rattle.frames.specs.Chains.{frames_in};
ghost use Rattle.typed_heap.specs.Objects.{killed};
ghost use Rattle.mu_model.specs.Changes.{changed};
ghost use Rattle.run_state.specs.Acting.{objects_end};
ghost use Rattle.run_state.specs.Remembering.{initials};

use frames::Frames;
use mu_values::Slots;
use std::mem;
use typed_heap::Heap;

/// No heap has more objects.
pub const MOST_OBJECTS: u32 = 4294967293;

/// The cells of an object are dead, where it is there.
#[tactic(auto, using(crate::specs::Lists::change_so, crate::specs::Lists::change_beyond))]
fn end_object(heap: &mut Heap, object: u32)
    ensures objects { heap.new.objects ≡ changed killed object heap.old.objects }
    ensures left { heap.new.left ≡ heap.old.left }
    ensures initials { initials heap.new.objects ≡ initials heap.old.objects }
{
    if object < heap.objects() {
        heap.end_cells(object);
    }
}

/// The cells of these objects are dead.
#[tactic(auto, using(crate::specs::Lists::ending))]
pub fn end_objects(heap: &mut Heap, objects: &[u32])
    ensures objects { heap.new.objects ≡ objects_end heap.old.objects objects.now }
    ensures left { heap.new.left ≡ heap.old.left }
    ensures initials { initials heap.new.objects ≡ initials heap.old.objects }
{
    for object in objects {
        end_object(heap, *object);
    }
}

/// Takes the top frame away.
pub(crate) fn leave(frames: &mut Frames)
    requires { 0 < length frames.old.below }
    ensures { frames_in frames.new ≡ frames.old.below }
{
    match frames.leave() {
        Some(_frame) => {}
        None => unreachable!(),
    }
}

/// Takes the top frame away. The list of its values comes in exchange for this one, so that its room may be used again.
pub fn leave_for(frames: &mut Frames, slots: &mut Slots)
    requires { 0 < length frames.old.below }
    ensures { frames_in frames.new ≡ frames.old.below }
{
    match frames.leave() {
        Some(mut frame) => mem::swap(&mut frame.slots, slots),
        None => unreachable!(),
    }
}

/// Takes the top frame away, and the cells of its objects are dead.
#[tactic(auto, using(crate::specs::Lists::second_there))]
fn leave_one(frames: &mut Frames, heap: &mut Heap)
    requires { 1 < length (frames_in frames.old) }
    ensures frames { frames_in frames.new ≡ frames.old.below }
    ensures objects { heap.new.objects ≡ objects_end heap.old.objects frames.old.top.objects }
    ensures left { heap.new.left ≡ heap.old.left }
    ensures initials { initials heap.new.objects ≡ initials heap.old.objects }
{
    end_objects(heap, frames.top().cells.as_slice());
    leave(frames);
}

/// Takes so many frames away from the top, and the cells of their objects are dead.
#[tactic(auto, using(crate::specs::Lists::leaving))]
pub fn leave_frames(frames: &mut Frames, heap: &mut Heap, n: u32)
    requires { n < length (frames_in frames.old) }
    ensures frames { frames_in frames.new ≡ drop n (frames_in frames.old) }
    ensures objects { heap.new.objects ≡ objects_end heap.old.objects (flat_map (λ (f : Activation). f.objects) (take n (frames_in frames.old))) }
    ensures left { heap.new.left ≡ heap.old.left }
    ensures initials { initials heap.new.objects ≡ initials heap.old.objects }
{
    for i in 0..n {
        leave_one(frames, heap);
    }
}

/// The cells of the objects of all frames are dead.
#[tactic(auto, using(crate::specs::Lists::all_ending))]
pub fn end_frames(frames: &Frames, heap: &mut Heap)
    ensures objects { heap.new.objects ≡ objects_end heap.old.objects (flat_map (λ (f : Activation). f.objects) (frames_in frames.now)) }
    ensures left { heap.new.left ≡ heap.old.left }
    ensures initials { initials heap.new.objects ≡ initials heap.old.objects }
{
    for n in 0..frames.count() {
        end_objects(heap, frames.frame(n).cells.as_slice());
    }
}
