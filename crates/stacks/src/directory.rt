// The stacks that were made.
ghost use Rattle.std.specs.Prelude.{◌≡◌, ◌≢◌, ◌+◌, ◌<◌, ◌≤◌, [], ◌∷◌, ◌++◌, Some, length, slice_get, slice_set, option_map, vec_len, vec_capacity, OnOk, OnErr, IfOk, IfErr, IfSome, IfNone, IsSomeAnd};
ghost use Rattle.slab.specs.Slab.{HasRoomFor};
ghost use Rattle.stacks.specs.Directories.{Ready, Active, Dead, state_of, ready_frames, IsTaken};
ghost use Rattle.stacks.specs.Kept.{state_kept};

use crate::stack::{ActiveStack, ReadyStack};
use crate::state::{NotReady, StackState};
use frames::Frames;
use mu_base::Types;
use slab::Slab;
use std::alloc::{AllocError, Global};
use std::marker::Model;

/// A directory has no more stacks than this.
const MOST_STACKS: usize = 4294967295;

/// What is kept of a stack.
#[derive(Clone, Copy)]
enum Kept {
    /// It is ready, and its body stands under this key.
    Ready(usize),
    /// It was taken for this thread.
    Active(u32),
    /// Its frames have ended.
    Dead,
}

/// The stacks that were made, by number, from 0 on. Contracts see an entry for each: its state, with frames and types where it is
/// ready. A number is never used again.
#[derive(Drop)]
pub struct Directory {
    kept: Vec<Kept>,
    // The bodies of the stacks that are ready, with room for those that were taken.
    bodies: Slab<ReadyStack>,
    // How many were taken.
    active: usize,
}

impl Model for Directory {
    ghost use Rattle.std.specs.Prelude.{List, map};
    ghost use Rattle.stacks.specs.Directories.{Entry};

    ghost Value = { List Entry };

    ghost use Rattle.stacks.specs.Kept.{entry_of, IsSound};

    ghost view = { λ d. map (entry_of d.bodies) d.kept.items };

    ghost invariant = { λ d. IsSound d.kept.items d.bodies d.active };
}

impl Directory {
    /// No stacks. It takes no memory yet.
    pub fn new(alloc: Global) -> Directory
        ensures { result ≡ [] }
    {
        Directory {
            kept: Vec::new(alloc),
            bodies: Slab::new(alloc),
            active: 0,
        }
    }

    /// Makes a stack under the next number, ready for values of these types. It makes the room as well that each later `put_back`
    /// of the stack fills. It is refused only when out of memory, also where there would be 2^32 stacks; then the frames come
    /// back, and the stacks are as they were.
    pub fn make(&mut self, frames: Frames, waits: Types) -> Result<u32, (Frames, AllocError)>
        ensures number { IfOk result (λ number. number ≡ length self.old) }
        ensures made { OnOk result (self.new ≡ self.old ++ Ready frames waits.members ∷ []) }
        ensures same { OnErr result (self.new ≡ self.old) }
        ensures frames_back { IfErr result (λ e. e.0 ≡ frames) }
    {
        if let Err(refusal) = make_room(&mut self.kept, &mut self.bodies, self.active) {
            return Err((frames, refusal));
        }
        let number = self.kept.len() as u32;
        let stack = ReadyStack::new(number, frames, waits);
        let key = self.bodies.insert_reserved(stack);
        self.kept.push_reserved(Kept::Ready(key));
        Ok(number)
    }

    /// Hands a stack out to a thread; it is active on that thread from then on. It is refused exactly where the stack is not
    /// ready; then nothing changes.
    pub fn take(&mut self, id: u32, thread: u32) -> Result<ReadyStack, NotReady>
        requires { id < length self.old }
        ensures number { IfOk result (λ s. s.number ≡ id) }
        ensures was_ready { IfOk result (λ s. slice_get self.old id ≡ Some (Ready s.frames s.waits)) }
        ensures active { OnOk result (self.new ≡ slice_set self.old id (Active thread)) }

        ensures state { IfErr result (λ e. option_map state_of (slice_get self.old id) ≡ Some e.state) }
        ensures not_ready { IfErr result (λ e. e.state ≢ StackState.Ready) }
        ensures same { OnErr result (self.new ≡ self.old) }
    {
        let key = key_of(&self.kept, id)?;
        self.kept[id as usize] = Kept::Active(thread);
        self.active += 1;
        Ok(self.bodies.remove(key))
    }

    /// Takes a stack in again that was taken: it is ready, as it is now.
    pub fn put_back(&mut self, stack: ReadyStack)
        requires { IsTaken (slice_get self.old stack.number) }
        ensures { self.new ≡ slice_set self.old stack.number (Ready stack.frames stack.waits) }
    {
        let number = stack.number() as usize;
        let key = self.bodies.insert_reserved(stack);
        self.kept[number] = Kept::Ready(key);
        self.active -= 1;
    }

    /// Ends a stack and hands its frames out; it is dead from then on. It is refused exactly where the stack is not ready; then
    /// nothing changes.
    pub fn kill(&mut self, id: u32) -> Result<Frames, NotReady>
        requires { id < length self.old }
        ensures frames { IfOk result (λ frames. ready_frames (slice_get self.old id) ≡ Some frames) }
        ensures dead { OnOk result (self.new ≡ slice_set self.old id Dead) }

        ensures state { IfErr result (λ e. option_map state_of (slice_get self.old id) ≡ Some e.state) }
        ensures not_ready { IfErr result (λ e. e.state ≢ StackState.Ready) }
        ensures same { OnErr result (self.new ≡ self.old) }
    {
        let key = key_of(&self.kept, id)?;
        self.kept[id as usize] = Kept::Dead;
        Ok(self.bodies.remove(key).into_frames())
    }

    /// How many stacks were made.
    pub fn count(&self) -> u32
        ensures { result ≡ length self.now }
    {
        self.kept.len() as u32
    }

    /// The state of a stack.
    pub fn state_of(&self, id: u32) -> StackState
        requires { id < length self.now }
        ensures { option_map state_of (slice_get self.now id) ≡ Some result }
    {
        match key_of(&self.kept, id) {
            Ok(_) => StackState::Ready,
            Err(other) => other.state,
        }
    }

    /// A stack that is ready, where it stands. None comes exactly where it is not ready.
    pub fn ready(&self, id: u32) -> Option<&ReadyStack>
        requires { id < length self.now }
        ensures some { IfSome result (λ s. slice_get self.now id ≡ Some (Ready s.now.frames s.now.waits)) }
        ensures number { IfSome result (λ s. s.now.number ≡ id) }
        ensures none { IfNone result (IsSomeAnd (option_map state_of (slice_get self.now id)) (λ state. state ≢ StackState.Ready)) }
    {
        match key_of(&self.kept, id) {
            Ok(key) => self.bodies.get(key),
            Err(_not_ready) => None,
        }
    }

    /// A stack that was taken is dead from now on.
    fn end(&mut self, id: u32)
        requires { IsTaken (slice_get self.old id) }
        ensures { self.new ≡ slice_set self.old id Dead }
    {
        self.kept[id as usize] = Kept::Dead;
        self.active -= 1;
    }
}

/// Makes room for one more stack: for what is kept of it, and for its body beside those of the stacks that were taken.
fn make_room(
    kept: &mut Vec<Kept>,
    bodies: &mut Slab<ReadyStack>,
    active: usize,
) -> Result<(), AllocError>
    requires { active ≤ 4294967295 }
    ensures kept { kept.new.items ≡ kept.old.items }
    ensures bodies { bodies.new ≡ record bodies.old { capacity = bodies.new.capacity } }
    ensures capacity { bodies.old.capacity ≤ bodies.new.capacity }
    ensures few { OnOk result (length kept.new.items < 4294967295) }
    ensures kept_room { OnOk result (vec_len kept.new < vec_capacity kept.new) }
    ensures body_room { OnOk result (HasRoomFor bodies.new (active + 1)) }
{
    if kept.len() >= MOST_STACKS {
        return Err(AllocError);
    }
    kept.reserve(1)?;
    bodies.reserve(active + 1)
}

/// The key of a stack's body; the state, where the stack is not ready.
fn key_of(kept: &[Kept], id: u32) -> Result<usize, NotReady>
    requires { id < length kept.now }
    ensures ready { IfOk result (λ key. slice_get kept.now id ≡ Some (Kept.Ready key)) }
    ensures state { IfErr result (λ e. option_map state_kept (slice_get kept.now id) ≡ Some e.state) }
    ensures not_ready { IfErr result (λ e. e.state ≢ StackState.Ready) }
{
    match kept[id as usize] {
        Kept::Ready(key) => Ok(key),
        Kept::Active(thread) => Err(NotReady {
            state: StackState::Active(thread),
        }),
        Kept::Dead => Err(NotReady {
            state: StackState::Dead,
        }),
    }
}

impl ActiveStack {
    /// Ends the stack and hands its frames out, for the directory that it was taken from, in which it is dead from then on.
    pub fn kill(self, all: &mut Directory) -> Frames
        requires { slice_get all.old self.number ≡ Some (Active self.thread) }
        ensures frames { result ≡ self.frames }
        ensures dead { all.new ≡ slice_set all.old self.number Dead }
    {
        all.end(self.number());
        self.into_frames()
    }
}
