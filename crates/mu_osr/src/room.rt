// Room for edits.
ghost use Rattle.std.specs.Prelude.{◌≡◌, ◌≤◌, ◌<◌, ◌+◌, ◌-◌, [], false, IfOk, IfSome, OnOk, length};
ghost use Rattle.frames.specs.Chains.{frames_in};
ghost use Rattle.mu_osr.specs.Kept.{Needed};

use frames::Frames;
use mu_base::{Ids, Items, Types};
use stacks::ReadyStack;
use std::alloc::{AllocError, Global};
use std::marker::Model;
use std::snapshot::Snapshot;

/// The text of a bundle gives a function at most so many parameters.
const MOST_PARAMETERS: usize = 256;

/// Room for one pop and one push of the stack that it was made for, and the objects of the frames that were popped. Contracts see the
/// frames that the stack has now, how far may be popped and how many parameters may be pushed, and what was done.
#[derive(Drop)]
pub struct EditRoom {
    pub(crate) alloc: Global,
    // The frames that the stack has now; it takes no memory.
    pub(crate) frames: Snapshot<Frames>,
    pub(crate) pops: usize,
    pub(crate) popped: bool,
    pub(crate) parameters: usize,
    pub(crate) pushed: bool,
    pub(crate) cells: Ids,
    // What the stack waits for after a pop.
    pub(crate) waits: Types,
    // The parameters of a function that is pushed, for its frame and for the stack.
    pub(crate) takes: Types,
    pub(crate) also: Types,
}

impl Model for EditRoom {
    ghost use Rattle.std.specs.Prelude.{◌≡◌, ◌≤◌, ◌+◌, [], false, if◌then◌else◌};
    ghost use Rattle.frames.specs.Chains.{frames_in};
    ghost use Rattle.mu_osr.specs.Kept.{HasPopRoom};
    ghost use Rattle.mu_osr.specs.Rooms.{Room};

    ghost Value = { Room };

    ghost view = { λ r. record { frames = frames_in r.frames.value; pops = r.pops; popped = r.popped; parameters = r.parameters; pushed = r.pushed; cells = r.cells.members } };

    ghost invariant = { λ r. (r.pops ≤ 4294967296 + (if r.pushed then 1 else 0)) × (r.popped ≡ false → HasPopRoom (frames_in r.frames.value) r.pops r.cells.spare r.waits.spare × (r.parameters ≤ r.waits.spare) × (r.waits.members ≡ []) × (r.cells.members ≡ [])) × (r.pushed ≡ false → (r.parameters ≤ r.takes.spare) × (r.parameters ≤ r.also.spare) × (r.takes.members ≡ []) × (r.also.members ≡ [])) };
}

/// For how many objects, and for how many values that a frame waits for, there has to be room.
#[derive(Clone, Copy)]
struct Needs {
    cells: usize,
    waits: usize,
}

impl Needs {
    /// The same with one frame more. None comes where there would be more objects than `usize` counts.
    fn with(self, cells: usize, waits: usize) -> Option<Needs>
        ensures cells { IfSome result (λ n. n.cells ≡ self.cells + cells) }
        ensures more { IfSome result (λ n. self.waits ≤ n.waits) }
        ensures waits { IfSome result (λ n. waits ≤ n.waits) }
    {
        let cells = self.cells.checked_add(cells)?;
        let waits = if self.waits < waits {
            waits
        } else {
            self.waits
        };
        Some(Needs { cells, waits })
    }
}

/// What that many frames from the top need, and the one below them. It is refused where they have more objects than `usize` counts.
#[tactic(auto, using(crate::proofs::Popping::needing))]
fn needs_of(frames: &Frames, pops: u32) -> Result<Needs, AllocError>
    ensures { IfOk result (λ n. Needed (frames_in frames.now) (pops + 1) n.cells n.waits) }
{
    let mut needs = Needs { cells: 0, waits: 0 };
    let count = frames.count();
    let many = if pops < count { pops + 1 } else { count };
    for n in 0..many {
        let frame = frames.frame(n);
        let Some(more) = needs.with(frame.cells.len(), frame.waits.len()) else {
            return Err(AllocError);
        };
        needs = more;
    }
    Ok(needs)
}

/// The larger of two numbers.
fn larger(a: usize, b: usize) -> usize
    ensures first { a ≤ result }
    ensures second { b ≤ result }
{
    if a < b { b } else { a }
}

/// An empty list with room for that many members.
fn with_room(alloc: Global, many: usize) -> Result<Items<u32>, AllocError>
    ensures none { IfOk result (λ l. l.members ≡ []) }
    ensures room { IfOk result (λ l. many ≤ l.spare) }
{
    let mut list = Items::new(alloc);
    list.reserve(many)?;
    Ok(list)
}

impl EditRoom {
    /// Room for one pop of the stack, of any number of frames, and for one push, of a function with at most 256 parameters, which is
    /// the most that the text of a bundle gives to a function. It looks at all frames of the stack. It is refused out of memory only;
    /// of the stack nothing changes but its room for frames.
    pub fn make(alloc: Global, stack: &mut ReadyStack) -> Result<EditRoom, AllocError>
        ensures number { stack.new.number ≡ stack.old.number }
        ensures frames { frames_in stack.new.frames ≡ frames_in stack.old.frames }
        ensures waits { stack.new.waits ≡ stack.old.waits }
        ensures spare { stack.old.frames.spare ≤ stack.new.frames.spare }
        ensures free { OnOk result (0 < stack.new.frames.spare) }
        ensures room { IfOk result (λ r. r ≡ record { frames = frames_in stack.old.frames; pops = length (frames_in stack.old.frames) - 1; popped = false; parameters = 256; pushed = false; cells = [] }) }
    {
        let below = stack.frames().count() - 1;
        EditRoom::for_edit(alloc, stack, below, MOST_PARAMETERS)
    }

    /// Room for one edit of the stack that is known beforehand: it pops at most `pops` frames, and pushes a function with at most
    /// `parameters` parameters. It looks only at the frames that may be popped, and the one below them. It is refused out of memory
    /// only; of the stack nothing changes but its room for frames.
    pub fn for_edit(
        alloc: Global,
        stack: &mut ReadyStack,
        pops: u32,
        parameters: usize,
    ) -> Result<EditRoom, AllocError>
        ensures number { stack.new.number ≡ stack.old.number }
        ensures frames { frames_in stack.new.frames ≡ frames_in stack.old.frames }
        ensures waits { stack.new.waits ≡ stack.old.waits }
        ensures spare { stack.old.frames.spare ≤ stack.new.frames.spare }
        ensures free { OnOk result (0 < stack.new.frames.spare) }
        ensures room { IfOk result (λ r. r ≡ record { frames = frames_in stack.old.frames; pops = pops; popped = false; parameters = parameters; pushed = false; cells = [] }) }
    {
        let needs = needs_of(stack.frames(), pops)?;
        let cells = with_room(alloc, needs.cells)?;
        let waits = with_room(alloc, larger(needs.waits, parameters))?;
        let takes = with_room(alloc, parameters)?;
        let also = with_room(alloc, parameters)?;
        stack.reserve()?;
        let frames = Snapshot::of(stack.frames());
        Ok(EditRoom {
            alloc,
            frames,
            pops: pops as usize,
            popped: false,
            parameters,
            pushed: false,
            cells,
            waits,
            takes,
            also,
        })
    }

    /// The objects of the frames that were popped.
    pub fn cells(&self) -> &Ids
        ensures { result.now.members ≡ self.now.cells }
    {
        &self.cells
    }

    /// The objects of the frames that were popped, and the rest of the room is given back.
    pub fn into_cells(self) -> Ids
        ensures { result.members ≡ self.cells }
    {
        self.cells
    }
}
