// Small lists that contracts see as their members and the room for more.
ghost use Rattle.std.specs.Prelude.{◌≡◌, ◌+◌, ◌<◌, ◌≤◌, [], ◌∷◌, ◌++◌, Some, length, slice_get, OnOk, OnErr};

use std::alloc::{AllocError, Global};
use std::marker::Model;

/// A list of plain values. Contracts see its members, in order, and `spare`, the number of further members that
/// `push` takes without a refusal. It keeps its allocator, so only `new` asks for one.
#[derive(Drop)]
pub struct Items<T: Copy> {
    items: Vec<T>,
}

/// Numbers of things.
pub type Ids = Items<u32>;

/// Classes of types.
pub type Types = Items<u32>;

/// Bytes of any kind.
pub type Text = Items<u8>;

impl<T: Copy> Model for Items<T> {
    ghost use Rattle.std.specs.Prelude.{◌-◌, vec_len, vec_capacity};
    ghost use Rattle.mu_base.specs.Lists.{Roomy};

    ghost Value = { Roomy T };

    ghost view = { λ a. record { members = a.items.items; spare = vec_capacity a.items - vec_len a.items } };
}

impl<T: Copy> Items<T> {
    /// An empty list. It takes no memory yet.
    pub fn new(alloc: Global) -> Self
        ensures { result.members ≡ [] }
    {
        Items {
            items: Vec::new(alloc),
        }
    }

    /// The members of a `Vec`, in its order.
    pub fn from_vec(items: Vec<T>) -> Self
        ensures { result.members ≡ items.items }
    {
        Items { items }
    }

    /// How many members there are.
    pub fn len(&self) -> usize
        ensures { result ≡ length self.now.members }
    {
        self.items.len()
    }

    /// The member with that number, counted from 0.
    pub fn at(&self, n: usize) -> T
        requires { n < length self.now.members }
        ensures { slice_get self.now.members n ≡ Some result }
    {
        self.items[n]
    }

    /// All members.
    pub fn as_slice(&self) -> &[T]
        ensures { result.now ≡ self.now.members }
    {
        self.items.as_slice()
    }

    /// Makes room for that many further members. A refusal leaves the members as they were.
    pub fn reserve(&mut self, more: usize) -> Result<(), AllocError>
        ensures members { self.new.members ≡ self.old.members }
        ensures spare { OnOk result (more ≤ self.new.spare) }
    {
        self.items.reserve(more)
    }

    /// Adds a member at the end. It is refused only where there is no spare room, and leaves the members as they were.
    pub fn push(&mut self, member: T) -> Result<(), AllocError>
        ensures ok { OnOk result (self.new.members ≡ self.old.members ++ member ∷ []) }
        ensures err { OnErr result (self.new.members ≡ self.old.members) }
        ensures refused { OnErr result (self.old.spare ≡ 0) }
        ensures spare { self.old.spare ≤ self.new.spare + 1 }
    {
        self.items.push(member)?;
        Ok(())
    }

    /// Takes all members out. The room stays, so that as many may come again without a refusal.
    pub fn clear(&mut self)
        ensures members { self.new.members ≡ [] }
        ensures spare { self.old.spare ≤ self.new.spare }
    {
        self.items.clear();
    }
}
