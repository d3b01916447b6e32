// Frames that are popped.
ghost use Rattle.std.specs.Prelude.{◌≡◌, ◌≤◌, ◌<◌, ◌+◌, ◌++◌, length, take, drop, IfOk, IfErr, OnOk, OnErr, true, false};
ghost use Rattle.frames.specs.Chains.{frames_in};
ghost use Rattle.mu_osr.specs.Rooms.{objects_of};

use crate::room::EditRoom;
use frames::Frames;
use mu_base::{Ids, Items, Types};
use stacks::ReadyStack;
use std::mem;
use std::snapshot::Snapshot;

/// There is no frame with that number.
#[derive(Clone, Copy, Debug, PartialEq, Eq)]
pub struct NoFrame {
    /// How many frames there are.
    pub frames: u32,
}

/// Adds numbers at the end of a list, which has room for them.
#[tactic(auto, using(crate::proofs::Popping::append_next))]
pub(crate) fn append(out: &mut Items<u32>, more: &[u32])
    requires { length more.now ≤ out.old.spare }
    ensures members { out.new.members ≡ out.old.members ++ more.now }
    ensures spare { out.old.spare ≤ out.new.spare + length more.now }
{
    for member in more {
        match out.push(*member) {
            Ok(()) => {}
            Err(_refusal) => unreachable!(),
        }
    }
}

/// The top frame ends, and its objects are noted.
fn pop_one(frames: &mut Frames, cells: &mut Ids)
    requires below { 0 < length frames.old.below }
    requires room { length frames.old.top.objects ≤ cells.old.spare }
    ensures frames { frames_in frames.new ≡ frames.old.below }
    ensures spare { frames.old.spare ≤ frames.new.spare }
    ensures cells { cells.new.members ≡ cells.old.members ++ frames.old.top.objects }
    ensures cell_spare { cells.old.spare ≤ cells.new.spare + length frames.old.top.objects }
{
    match frames.leave() {
        Some(frame) => append(cells, frame.cells.as_slice()),
        None => unreachable!(),
    }
}

/// That many frames end from the top, and their objects are noted.
#[tactic(auto, using(crate::proofs::Popping::popping))]
fn pop(frames: &mut Frames, cells: &mut Ids, n: u32)
    requires below { n < length (frames_in frames.old) }
    requires room { length (objects_of (take n (frames_in frames.old))) ≤ cells.old.spare }
    ensures frames { frames_in frames.new ≡ drop n (frames_in frames.old) }
    ensures spare { frames.old.spare ≤ frames.new.spare }
    ensures cells { cells.new.members ≡ cells.old.members ++ objects_of (take n (frames_in frames.old)) }
{
    for i in 0..n {
        pop_one(frames, cells);
    }
}

/// Ends the frames above frame `n`, where frame 0 is the top one: then frame `n` is on top, and the stack waits for what that frame
/// waits for. The objects of the frames that ended stand in the room, from the top down. The room must be one that was made for the
/// stack, which was changed by `pop_to` and `push` with this room only since then, and by no pop; it must have been made for `n` frames
/// or more, where there are so many. It takes no memory. `NoFrame` comes exactly where the stack has no frame `n`: then the stack comes
/// back, and the room is as before.
pub fn pop_to(
    stack: ReadyStack,
    n: u32,
    room: &mut EditRoom,
) -> Result<ReadyStack, (ReadyStack, NoFrame)>
    requires made { room.old.frames ≡ frames_in stack.frames }
    requires unused { room.old.popped ≡ false }
    requires deep { n < length (frames_in stack.frames) → n ≤ room.old.pops }
    ensures number { IfOk result (λ s. s.number ≡ stack.number) }
    ensures frames { IfOk result (λ s. frames_in s.frames ≡ drop n (frames_in stack.frames)) }
    ensures waits { IfOk result (λ s. s.waits ≡ s.frames.top.waits) }
    ensures spare { IfOk result (λ s. stack.frames.spare ≤ s.frames.spare) }
    ensures there { OnOk result (n < length (frames_in stack.frames)) }
    ensures cells { OnOk result (room.new.cells ≡ objects_of (take n (frames_in stack.frames))) }
    ensures used { IfOk result (λ s. room.new ≡ record room.old { frames = frames_in s.frames; popped = true; cells = room.new.cells }) }

    ensures missing { OnErr result (length (frames_in stack.frames) ≤ n) }
    ensures count { IfErr result (λ e. e.1.frames ≡ length (frames_in stack.frames)) }
    ensures back { IfErr result (λ e. e.0 ≡ stack) }
    ensures same { OnErr result (room.new ≡ room.old) }
{
    let frames = stack.frames().count();
    if n >= frames {
        return Err((stack, NoFrame { frames }));
    }
    let mut open = stack.begin_edit();
    pop(open.frames_mut(), &mut room.cells, n);
    append(&mut room.waits, open.frames_mut().top().waits.as_slice());
    let waits = mem::replace(&mut room.waits, Types::new(room.alloc));
    room.popped = true;
    let stack = open.close(waits);
    room.frames = Snapshot::of(stack.frames());
    Ok(stack)
}
