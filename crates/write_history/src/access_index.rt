// Accesses that are found by their numbers.
ghost use Rattle.std.specs.Prelude.{◌≡◌, ℕ, ◌+◌, ◌-◌, ◌<◌, ◌≤◌, ◌^◌, [], ◌∷◌, length, slice_index_or, reverse, All, OnOk};
ghost use Rattle.std.specs.Option.{option_map};
ghost use Rattle.write_history.specs.Indexes.{last_position, first_after, no_entry, Rising};

use mu_base::Steps;
use smallvec::SmallVec;
use std::alloc::{AllocError, Global};
use std::marker::Model;
use std::sync::ledger::Ledger;

/// An access as an index keeps it: the number of its event, and its position.
#[derive(Clone, Copy, Debug, Default, PartialEq, Eq)]
pub struct Entry {
    /// The number of the event.
    pub event: u32,
    /// The position that it reads or makes.
    pub position: u32,
}

/// Accesses with rising numbers: those of one cell by one thread, or of one kind. Contracts see the list of them,
/// newest first, and `spare`, the number of further accesses that `push` takes.
///
/// What the numbers are is the caller's choice: they only have to rise. A search looks at one entry at a time and counts
/// each look as one step. The first access takes no memory, since most indexes have no more.
#[derive(Drop)]
pub struct AccessIndex {
    entries: SmallVec<Entry, 1>,
}

impl Model for AccessIndex {
    ghost use Rattle.std.specs.Prelude.{◌-◌, length, reverse};
    ghost use Rattle.write_history.specs.Rooms.{Accesses};
    ghost use Rattle.write_history.specs.Indexes.{Rising};

    ghost Value = { Accesses };

    ghost view = { λ a. record { accesses = reverse a.entries.items; spare = a.entries.capacity - length a.entries.items } };

    ghost invariant = { λ a. Rising (reverse a.entries.items) };
}

impl AccessIndex {
    /// An index with no accesses. It takes no memory.
    pub fn new(alloc: Global) -> Self
        ensures { result.accesses ≡ [] }
    {
        AccessIndex {
            entries: SmallVec::new(alloc),
        }
    }

    /// Makes room for one more access. A refusal leaves the accesses as they were.
    pub fn reserve(&mut self) -> Result<(), AllocError>
        ensures accesses { self.new.accesses ≡ self.old.accesses }
        ensures room { OnOk result (0 < self.new.spare) }
        ensures spare { self.old.spare ≤ self.new.spare }
    {
        self.reserve_many(1)
    }

    /// Makes room for that many more. A refusal leaves the accesses as they were.
    pub fn reserve_many(&mut self, count: usize) -> Result<(), AllocError>
        ensures accesses { self.new.accesses ≡ self.old.accesses }
        ensures room { OnOk result (count ≤ self.new.spare) }
        ensures spare { self.old.spare ≤ self.new.spare }
    {
        if self.entries.is_empty() {
            self.entries.reserve_exact(count)
        } else {
            self.entries.reserve(count)
        }
    }

    /// Adds an access whose number is above all others, into room that is there.
    pub fn push(&mut self, event: u32, position: u32)
        requires room { 0 < self.old.spare }
        requires above { All (λ entry. entry.event < event) self.old.accesses }
        ensures accesses { self.new.accesses ≡ record { event = event; position = position } ∷ self.old.accesses }
        ensures spare { self.old.spare ≤ self.new.spare + 1 }
    {
        self.entries.push_reserved(Entry { event, position });
    }

    /// The position of the last access whose number is at most `upto`; None exactly where there is none.
    ///
    /// It looks at the newest access first, and only then searches the others, by halves.
    ///
    /// It counts at least one step where the index is not empty, and at most d + 1 for every d with fewer than 2^d
    /// accesses: one more than the number of accesses has binary digits.
    pub fn floor<L: Ledger>(&self, upto: u32, steps: &mut Steps<L>) -> Option<u32>
        ensures found { result ≡ last_position upto self.now.accesses }
        ensures some_cost { 0 < length self.now.accesses → steps.old < steps.new }
        ensures cost { (d : ℕ) → length self.now.accesses < 2 ^ d → steps.new ≤ steps.old + (d + 1) }
    {
        neighbours_of(self.entries.as_slice(), upto, steps)
            .before
            .map(|entry| entry.position)
    }

    /// The number of the first access whose number is greater than `upto`; None exactly where there is none.
    ///
    /// It searches as `floor` does. It counts as many steps as `floor`.
    pub fn after<L: Ledger>(&self, upto: u32, steps: &mut Steps<L>) -> Option<u32>
        ensures found { result ≡ first_after upto self.now.accesses }
        ensures some_cost { 0 < length self.now.accesses → steps.old < steps.new }
        ensures cost { (d : ℕ) → length self.now.accesses < 2 ^ d → steps.new ≤ steps.old + (d + 1) }
    {
        neighbours_of(self.entries.as_slice(), upto, steps)
            .after
            .map(|entry| entry.event)
    }
}

/// The entries on both sides of a number: the last up to it, and the first above it.
#[derive(Clone, Copy)]
struct Neighbours {
    before: Option<Entry>,
    after: Option<Entry>,
}

/// The neighbours of a number. The newest entry answers most look-ups, so it is looked at first.
fn neighbours_of<L: Ledger>(entries: &[Entry], upto: u32, steps: &mut Steps<L>) -> Neighbours
    requires { Rising (reverse entries.now) }
    ensures before { option_map (λ entry. entry.position) result.before ≡ last_position upto (reverse entries.now) }
    ensures after { option_map (λ entry. entry.event) result.after ≡ first_after upto (reverse entries.now) }
    ensures some_cost { 0 < length entries.now → steps.old < steps.new }
    ensures cost { (d : ℕ) → length entries.now < 2 ^ d → steps.new ≤ steps.old + (d + 1) }
{
    if entries.is_empty() {
        return Neighbours {
            before: None,
            after: None,
        };
    }
    let newest = look(entries, entries.len() - 1, steps);
    if newest.event <= upto {
        return Neighbours {
            before: Some(newest),
            after: None,
        };
    }
    halve(entries, upto, newest, steps)
}

/// The neighbours of a number below that of the newest entry, by halves. The entries seen last on both sides are kept,
/// so that none is looked at twice.
fn halve<L: Ledger>(entries: &[Entry], upto: u32, newest: Entry, steps: &mut Steps<L>) -> Neighbours
    requires rising { Rising (reverse entries.now) }
    requires some { 0 < length entries.now }
    requires newest { newest ≡ slice_index_or entries.now (length entries.now - 1) no_entry }
    requires above { upto < newest.event }
    ensures before { option_map (λ entry. entry.position) result.before ≡ last_position upto (reverse entries.now) }
    ensures after { option_map (λ entry. entry.event) result.after ≡ first_after upto (reverse entries.now) }
    ensures counted { steps.old ≤ steps.new }
    ensures cost { (d : ℕ) → length entries.now ≤ 2 ^ d → steps.new ≤ steps.old + d }
{
    let mut before = None;
    let mut after = newest;
    let mut low = 0;
    let mut high = entries.len() - 1;
    while low < high {
        let middle = low + (high - low) / 2;
        let entry = look(entries, middle, steps);
        if entry.event <= upto {
            before = Some(entry);
            low = middle + 1;
        } else {
            after = entry;
            high = middle;
        }
    }
    Neighbours {
        before,
        after: Some(after),
    }
}

/// Looks at one entry. Nothing else reads the entries.
fn look<L: Ledger>(entries: &[Entry], at: usize, steps: &mut Steps<L>) -> Entry
    requires { at < length entries.now }
    ensures value { result ≡ slice_index_or entries.now at no_entry }
    ensures cost { steps.new ≡ steps.old + 1 }
{
    steps.tick();
    entries[at]
}
