//! Edits of the frames of a trapped stack.
ghost use Rattle.std.specs.Prelude.{◌≡◌, ◌≤◌, ◌<◌, ◌∷◌, List, Ok, Err, Some, IfNone, IfOk, IfSome, IsOk, IsSome, IsSomeAnd, OnErr, OnOk, drop, false, length, slice_get, slice_set, take};
ghost use Rattle.checked_code.specs.Checking.{bundle_functions, bundle_tables};
ghost use Rattle.frames.specs.Activations.{Activation};
ghost use Rattle.frames.specs.Chains.{frames_in};
ghost use Rattle.frames.specs.FrameOf.{frame_of};
ghost use Rattle.mu_model.specs.Configuration.{Active};
ghost use Rattle.mu_model.specs.Edits.{edited, pushed};
ghost use Rattle.mu_model.specs.Exceptions.{EnteredFrames};
ghost use Rattle.mu_model.specs.Types.{classes_taken};
ghost use Rattle.model_numbers.specs.Numbered.{numbered};
ghost use Rattle.client_hooks.specs.Replies.{edit_of};
ghost use Rattle.mu_osr.specs.Rooms.{objects_of};
ghost use Rattle.seats.specs.Seats.{IsOn};

use checked_code::Checked;
use client_hooks::Edit;
use frames::{Frame, Frames};
use mu_base::{Ids, Types};
use mu_model::Case;
use mu_osr::{EditRoom, has_results, parameters_of, pop_to, push};
use seats::{Asks, Seats};
use stacks::ReadyStack;
use std::alloc::{AllocError, Global};

/// Why a frame of the function cannot be put on top of this one.
#[tactic(auto, using(crate::proofs::Edited::refusing))]
fn push_refusal(code: &Checked, function: u32, under: &Frame) -> Option<Case>
    requires { function < length (bundle_functions code.now) }
    ensures refused { IfSome result (λ k. (below : List Activation) → pushed (numbered code.now) function (frame_of under.now ∷ below) ≡ Some (Err k)) }
    ensures goes { IfNone result ((below : List Activation) → IsSomeAnd (pushed (numbered code.now) function (frame_of under.now ∷ below)) IsOk) }
{
    if code.function(function).first.is_none() {
        Some(Case::NoBody)
    } else if !has_results(code, function, &under.waits) {
        Some(Case::StackTypes)
    } else {
        None
    }
}

/// Why an edit of these frames cannot be made; None comes exactly where it can. `ClientMisuse` comes where there is no frame with the
/// number `pop`, then `NoBody` where the function that is pushed is only declared, and `StackTypes` where it has a body and its results
/// are not of the types that the frame below it waits for. It takes no memory, and looks at one frame only.
#[tactic(auto, using(crate::proofs::Edited::deciding))]
pub fn edit_refusal(code: &Checked, frames: &Frames, edit: Edit) -> Option<Case>
    requires { IsSome (edited (numbered code.now) (edit_of edit) (frames_in frames.now)) }
    ensures refused { IfSome result (λ k. edited (numbered code.now) (edit_of edit) (frames_in frames.now) ≡ Some (Err k)) }
    ensures goes { IfNone result (IsSomeAnd (edited (numbered code.now) (edit_of edit) (frames_in frames.now)) IsOk) }
{
    if edit.pop >= frames.count() {
        return Some(Case::ClientMisuse);
    }
    match edit.push {
        Some(function) => push_refusal(code, function, frames.frame(edit.pop)),
        None => None,
    }
}

/// How many parameters the function has that an edit pushes.
fn parameters(code: &Checked, edit: Edit) -> usize
    ensures { IfSome edit.push (λ f. length (classes_taken (bundle_tables code.now) f) ≤ result) }
{
    match edit.push {
        Some(function) => parameters_of(code, function).len(),
        None => 0,
    }
}

/// The frames above the one with that number end.
fn pop_in(stack: ReadyStack, n: u32, room: &mut EditRoom) -> ReadyStack
    requires made { room.old.frames ≡ frames_in stack.frames }
    requires unused { room.old.popped ≡ false }
    requires deep { n ≤ room.old.pops }
    requires there { n < length (frames_in stack.frames) }
    ensures number { result.number ≡ stack.number }
    ensures frames { frames_in result.frames ≡ drop n (frames_in stack.frames) }
    ensures waits { result.waits ≡ result.frames.top.waits }
    ensures spare { stack.frames.spare ≤ result.frames.spare }
    ensures cells { room.new.cells ≡ objects_of (take n (frames_in stack.frames)) }
    ensures made { room.new.frames ≡ frames_in result.frames }
    ensures pushed { room.new.pushed ≡ room.old.pushed }
    ensures parameters { room.new.parameters ≡ room.old.parameters }
{
    match pop_to(stack, n, room) {
        Ok(stack) => stack,
        Err(_refusal) => unreachable!(),
    }
}

/// A frame of the function stands on top.
#[tactic(auto, using(crate::proofs::Edited::pushing))]
fn push_in(stack: ReadyStack, code: &Checked, function: u32, room: &mut EditRoom) -> ReadyStack
    requires made { room.old.frames ≡ frames_in stack.frames }
    requires unused { room.old.pushed ≡ false }
    requires free { 0 < stack.frames.spare }
    requires parameters { length (classes_taken (bundle_tables code.now) function) ≤ room.old.parameters }
    requires waits { stack.waits ≡ stack.frames.top.waits }
    requires goes { IsSomeAnd (pushed (numbered code.now) function (frames_in stack.frames)) IsOk }
    ensures number { result.number ≡ stack.number }
    ensures frames { pushed (numbered code.now) function (frames_in stack.frames) ≡ Some (Ok (frames_in result.frames)) }
    ensures cells { room.new.cells ≡ room.old.cells }
{
    match push(stack, code, function, room) {
        Ok(stack) => stack,
        Err(_refusal) => unreachable!(),
    }
}

/// The frames of a stack are popped and pushed as an edit says, in room that was made for it.
#[tactic(auto, using(crate::proofs::Edited::editing))]
fn edit_in(stack: ReadyStack, code: &Checked, edit: Edit, mut room: EditRoom) -> (ReadyStack, Ids)
    requires made { room.frames ≡ frames_in stack.frames }
    requires unpopped { room.popped ≡ false }
    requires unpushed { room.pushed ≡ false }
    requires deep { edit.pop ≤ room.pops }
    requires free { 0 < stack.frames.spare }
    requires parameters { IfSome edit.push (λ f. length (classes_taken (bundle_tables code.now) f) ≤ room.parameters) }
    requires goes { IsSomeAnd (edited (numbered code.now) (edit_of edit) (frames_in stack.frames)) IsOk }
    ensures number { result.0.number ≡ stack.number }
    ensures frames { edited (numbered code.now) (edit_of edit) (frames_in stack.frames) ≡ Some (Ok (record { frames = frames_in result.0.frames; ended = take edit.pop (frames_in stack.frames) })) }
    ensures objects { result.1.members ≡ objects_of (take edit.pop (frames_in stack.frames)) }
{
    let stack = pop_in(stack, edit.pop, &mut room);
    match edit.push {
        Some(function) => {
            let stack = push_in(stack, code, function, &mut room);
            (stack, room.into_cells())
        }
        None => (stack, room.into_cells()),
    }
}

/// An edit that is to be made, and the objects of the frames that it popped.
#[derive(Drop)]
struct Editing<'a> {
    alloc: Global,
    code: &'a Checked,
    edit: Edit,
    cells: Result<Ids, AllocError>,
}

impl<'a> Asks for Editing<'a> {
    ghost use Rattle.std.specs.Prelude.{◌≡◌, IfOk, IsOk, IsSomeAnd, OnErr};
    ghost use Rattle.mu_model.specs.Edits.{edited};
    ghost use Rattle.model_numbers.specs.Numbered.{numbered};
    ghost use Rattle.client_hooks.specs.Replies.{edit_of};
    ghost use Rattle.trap_answers.specs.Editing.{IsEdited};

    ghost takes = { λ e frames waits. IsSomeAnd (edited (numbered e.code.now) (edit_of e.edit) frames) IsOk };

    ghost asked = { λ old number frames waits new after. OnErr new.cells (after ≡ frames) × IfOk new.cells (λ ids. IsEdited (numbered old.code.now) (edit_of old.edit) frames after ids.members) };

    fn ask(&mut self, mut stack: ReadyStack) -> ReadyStack {
        let parameters = parameters(self.code, self.edit);
        match EditRoom::for_edit(self.alloc, &mut stack, self.edit.pop, parameters) {
            Ok(room) => {
                let (stack, cells) = edit_in(stack, self.code, self.edit, room);
                self.cells = Ok(cells);
                stack
            }
            Err(refusal) => {
                self.cells = Err(refusal);
                stack
            }
        }
    }
}

/// Pops and pushes frames of the stack that a thread is on, as an edit says. The objects of the frames that were popped are the
/// result, from the top down. It is refused only when out of memory, and then nothing changes. It costs what the frames cost that are
/// popped, and not all frames of the stack.
pub fn edit(
    alloc: Global,
    code: &Checked,
    edit: Edit,
    seats: &mut Seats,
    thread: u32,
    stack: u32,
) -> Result<Ids, AllocError>
    requires on { IsOn seats.old thread stack }
    requires goes { (frames : List Activation) → slice_get seats.old.stacks stack ≡ Some (Active thread frames) → IsSomeAnd (edited (numbered code.now) (edit_of edit) frames) IsOk }
    ensures frames { OnOk result ((frames : List Activation) (r : EnteredFrames) → slice_get seats.old.stacks stack ≡ Some (Active thread frames) → edited (numbered code.now) (edit_of edit) frames ≡ Some (Ok r) → seats.new ≡ record seats.old { stacks = slice_set seats.old.stacks stack (Active thread r.frames) }) }
    ensures objects { IfOk result (λ ids. (frames : List Activation) (r : EnteredFrames) → slice_get seats.old.stacks stack ≡ Some (Active thread frames) → edited (numbered code.now) (edit_of edit) frames ≡ Some (Ok r) → ids.members ≡ objects_of r.ended) }
    ensures same { OnErr result (seats.new ≡ seats.old) }
{
    // The stack has frames.
    let _ = seats.frames(thread, stack);
    let mut editing = Editing {
        alloc,
        code,
        edit,
        cells: Err(AllocError),
    };
    // A pop says anew what the stack waits for.
    seats.ask(thread, stack, Types::new(alloc), &mut editing);
    editing.cells
}
