// The accesses of a cell by thread and family, made as they are needed.
ghost use Rattle.std.specs.Prelude.{◌≡◌, ℕ, suc, ◌+◌, ◌<◌, ◌≤◌, ◌==◌, ◌&&◌, ◌∷◌, [], All, if◌then◌else◌, length, slice_index, vec_len, vec_capacity, MatchOption, OnOk};
ghost use Rattle.mem_axioms.specs.Events.{position_of};
ghost use Rattle.view_parts.specs.declared.families.Family.{Family};
ghost use Rattle.view_parts.specs.Families.{belongs};
ghost use Rattle.view_parts.specs.Slots.{IsPlaced};

use crate::families::{Family, NextEvent, belongs};
use crate::look_ups::ByThread;
use mem_axioms::event_facts::position_in;
use std::alloc::{AllocError, Global};
use write_history::AccessIndex;

/// The accesses of a cell by one thread.
#[derive(Drop)]
pub struct ThreadAccesses {
    all: AccessIndex,
    modifications: AccessIndex,
    not_atomic: AccessIndex,
    not_atomic_modifications: AccessIndex,
    seq_cst: AccessIndex,
}

/// Adds an entry for an access if it belongs to the index.
fn index_if(index: &mut AccessIndex, belongs: bool, next: NextEvent)
    requires number { next.number < 4294967295 }
    requires room { 0 < index.old.spare }
    requires above { All (λ entry. entry.event < suc next.number) index.old.accesses }
    ensures entries { index.new.accesses ≡ (if belongs then record { event = suc next.entry.number; position = position_of next.entry.event.now } ∷ index.old.accesses else index.old.accesses) }
    ensures spare { index.old.spare ≤ index.new.spare + 1 }
{
    if belongs {
        index.push(next.number + 1, position_in(next.event));
    }
}

impl ThreadAccesses {
    ghost use Rattle.view_parts.specs.Touched.{index_in};

    /// No accesses. It takes no memory beside its own.
    fn new(alloc: Global) -> ThreadAccesses
        ensures { (family : Family) → (index_in family result).accesses ≡ [] }
    {
        ThreadAccesses {
            all: AccessIndex::new(alloc),
            modifications: AccessIndex::new(alloc),
            not_atomic: AccessIndex::new(alloc),
            not_atomic_modifications: AccessIndex::new(alloc),
            seq_cst: AccessIndex::new(alloc),
        }
    }

    /// The accesses of a family.
    fn of(&self, family: Family) -> &AccessIndex
        ensures { result.now ≡ index_in family self.now }
    {
        match family {
            Family::Any => &self.all,
            Family::Modifications => &self.modifications,
            Family::NotAtomic => &self.not_atomic,
            Family::NotAtomicModifications => &self.not_atomic_modifications,
            Family::SeqCst => &self.seq_cst,
        }
    }

    /// Makes room for that many more accesses.
    fn reserve(&mut self, count: usize) -> Result<(), AllocError>
        ensures same { (family : Family) → (index_in family self.new).accesses ≡ (index_in family self.old).accesses }
        ensures spare { (family : Family) → (index_in family self.old).spare ≤ (index_in family self.new).spare }
        ensures room { OnOk result ((family : Family) → count ≤ (index_in family self.new).spare) }
    {
        self.all.reserve_many(count)?;
        self.modifications.reserve_many(count)?;
        self.not_atomic.reserve_many(count)?;
        self.not_atomic_modifications.reserve_many(count)?;
        self.seq_cst.reserve_many(count)
    }

    /// Adds an access to the families that it belongs to.
    fn add(&mut self, next: NextEvent)
        requires number { next.number < 4294967295 }
        requires room { (family : Family) → 0 < (index_in family self.old).spare }
        requires above { (family : Family) → All (λ entry. entry.event < suc next.number) (index_in family self.old).accesses }
        ensures entries { (family : Family) → (index_in family self.new).accesses ≡ (if belongs family next.entry.event.now then record { event = suc next.entry.number; position = position_of next.entry.event.now } ∷ (index_in family self.old).accesses else (index_in family self.old).accesses) }
        ensures spare { (family : Family) → (index_in family self.old).spare ≤ (index_in family self.new).spare + 1 }
    {
        let event = next.event;
        index_if(&mut self.all, belongs(Family::Any, event), next);
        index_if(
            &mut self.modifications,
            belongs(Family::Modifications, event),
            next,
        );
        index_if(
            &mut self.not_atomic,
            belongs(Family::NotAtomic, event),
            next,
        );
        index_if(
            &mut self.not_atomic_modifications,
            belongs(Family::NotAtomicModifications, event),
            next,
        );
        index_if(&mut self.seq_cst, belongs(Family::SeqCst, event), next);
    }
}

/// The accesses of a cell. A thread has a place there once it accesses the cell, so that a cell takes little memory for each
/// thread that does not.
#[derive(Drop)]
pub struct CellAccesses {
    // By thread: one more than its place, or 0.
    slots: Vec<u8>,
    // What each place has.
    touched: Vec<ThreadAccesses>,
    ghost placed: { IsPlaced slots.items (length touched.items) },
}

/// Adds slots with no place, up to that of a thread.
fn grow_slots(slots: &mut Vec<u8>, thread: usize) -> Result<(), AllocError>
    requires { thread < 64 }
    ensures same { (t : ℕ) → slice_index slots.new.items t ≡ slice_index slots.old.items t }
    ensures placed { (places : ℕ) → IsPlaced slots.old.items places → IsPlaced slots.new.items places }
    ensures there { OnOk result (thread < length slots.new.items) }
{
    while slots.len() <= thread {
        slots.push(0)?;
    }
    Ok(())
}

/// Makes room for one more place. The list takes twice what it took, and no more at first, since most cells are accessed by one
/// thread.
fn make_room(touched: &mut Vec<ThreadAccesses>) -> Result<(), AllocError>
    ensures same { touched.new.items ≡ touched.old.items }
    ensures room { OnOk result (vec_len touched.new < vec_capacity touched.new) }
{
    if touched.len() == touched.capacity() {
        touched.reserve_exact(touched.len().max(1))?;
    }
    Ok(())
}

impl CellAccesses {
    ghost use Rattle.view_parts.specs.Touched.{index_of, entries_at, no_accesses, under, IsKept};

    /// No accesses. It takes no memory yet.
    pub fn new(alloc: Global) -> CellAccesses
        ensures { (family : Family) (u : ℕ) → entries_at result family u ≡ [] }
    {
        CellAccesses {
            slots: Vec::new(alloc),
            touched: Vec::new(alloc),
        }
    }

    /// Those of a family.
    pub fn of(&self, family: Family) -> FamilyAccesses
        ensures accesses { result.accesses.now ≡ self.now }
        ensures family { result.family ≡ family }
    {
        FamilyAccesses {
            accesses: self,
            family,
        }
    }

    /// Those by a thread, if it has any.
    fn by(&self, thread: usize) -> Option<&ThreadAccesses>
        ensures { MatchOption result (under self.now.touched.items (slice_index self.now.slots.items thread) ≡ no_accesses) (λ found. found.now ≡ under self.now.touched.items (slice_index self.now.slots.items thread)) }
    {
        if self.slots.len() <= thread || self.slots[thread] == 0 {
            return None;
        }
        Some(&self.touched[self.slots[thread] as usize - 1])
    }

    /// Gives the next place to a thread that has none.
    fn give_place(&mut self, alloc: Global, thread: usize) -> Result<(), AllocError>
        requires there { thread < length self.old.slots.items }
        requires none { slice_index self.old.slots.items thread ≡ 0 }
        ensures kept { IsKept self.old self.new }
        ensures given { OnOk result (0 < slice_index self.new.slots.items thread) }
    {
        make_room(&mut self.touched)?;
        self.touched.push_reserved(ThreadAccesses::new(alloc));
        self.slots[thread] = self.touched.len() as u8;
        Ok(())
    }

    /// Gives a place to a thread, if it has none.
    fn touch(&mut self, alloc: Global, thread: usize) -> Result<(), AllocError>
        requires { thread < 64 }
        ensures kept { IsKept self.old self.new }
        ensures given { OnOk result (0 < slice_index self.new.slots.items thread) }
    {
        grow_slots(&mut self.slots, thread)?;
        if self.slots[thread] == 0 {
            return self.give_place(alloc, thread);
        }
        Ok(())
    }

    /// Makes room for that many more accesses by a thread that has a place.
    fn reserve_placed(&mut self, thread: usize, count: usize) -> Result<(), AllocError>
        requires { 0 < slice_index self.old.slots.items thread }
        ensures kept { IsKept self.old self.new }
        ensures room { OnOk result ((family : Family) → count ≤ (index_of self.new family thread).spare) }
    {
        let place = self.slots[thread] as usize - 1;
        self.touched[place].reserve(count)
    }

    /// Makes room for that many more accesses by a thread.
    pub fn reserve(&mut self, alloc: Global, thread: usize, count: usize) -> Result<(), AllocError>
        requires { thread < 64 }
        ensures kept { IsKept self.old self.new }
        ensures there { OnOk result (0 < slice_index self.new.slots.items thread) }
        ensures room { OnOk result ((family : Family) → count ≤ (index_of self.new family thread).spare) }
    {
        self.touch(alloc, thread)?;
        self.reserve_placed(thread, count)
    }

    /// Adds an access by a thread that has a place.
    pub fn add(&mut self, next: NextEvent)
        requires number { next.number < 4294967295 }
        requires there { 0 < slice_index self.old.slots.items next.event.now.thread }
        requires room { (family : Family) → 0 < (index_of self.old family next.event.now.thread).spare }
        requires above { (family : Family) → All (λ entry. entry.event < suc next.number) (entries_at self.old family next.event.now.thread) }
        ensures entries { (family : Family) (u : ℕ) → entries_at self.new family u ≡ (if belongs family next.entry.event.now && (u == next.entry.event.now.thread) then record { event = suc next.entry.number; position = position_of next.entry.event.now } ∷ entries_at self.old family u else entries_at self.old family u) }
        ensures spare { (family : Family) (u : ℕ) → (index_of self.old family u).spare ≤ (index_of self.new family u).spare + 1 }
        ensures slots { self.new.slots.items ≡ self.old.slots.items }
    {
        let place = self.slots[next.event.thread as usize] as usize - 1;
        self.touched[place].add(next);
    }
}

/// The accesses of a cell of one family.
#[derive(Clone, Copy)]
pub struct FamilyAccesses<'a> {
    accesses: &'a CellAccesses,
    family: Family,
}

impl<'a> ByThread for FamilyAccesses<'a> {
    ghost use Rattle.view_parts.specs.Touched.{entries_at};

    ghost entries = { λ of. entries_at of.accesses.now of.family };

    fn index(&self, thread: usize) -> Option<&AccessIndex> {
        match self.accesses.by(thread) {
            Some(found) => Some(found.of(self.family)),
            None => None,
        }
    }
}
