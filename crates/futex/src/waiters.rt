// Waiting and waking.
ghost use Rattle.std.specs.Prelude.{◌≡◌, ◌<◌, ◌≤◌, ◌==◌, ◌+◌, [], ◌∷◌, ◌++◌, None, length, vec_len, vec_capacity, IsSome, IfSome, OnOk};
ghost use Rattle.std.specs.List.{list_any, find};
ghost use Rattle.futex.specs.Waiting.{is_at, is_of, cell_of, timed_cell_of, oldest_at, threads_of, without};
ghost use Rattle.futex.specs.Kept.{AreApart, other_than, with_next};

use crate::woken::Woken;
use mu_values::CellId;
use std::alloc::{AllocError, Global};
use std::marker::Model;

/// A thread that waits at a cell, with a limit or without.
#[derive(Clone, Copy, Debug)]
pub struct Waiter {
    /// The number of the thread.
    pub thread: u32,
    /// The cell.
    pub cell: CellId,
    /// Whether the wait may end before the thread is woken.
    pub timed: bool,
}

/// The threads that wait, each at one cell, with numbers below 64. Contracts see the waiters, oldest first, and `spare`, for how many
/// more there is room. Of the calls `reserve` alone takes memory. Each takes time in proportion to the waiters; `wake` in proportion to
/// the waiters and, for each, to those that it wakes.
#[derive(Drop)]
pub struct Waiters {
    list: Vec<Waiter>,
}

impl Model for Waiters {
    ghost use Rattle.std.specs.Prelude.{◌-◌, vec_len, vec_capacity};
    ghost use Rattle.futex.specs.Waiting as seen;

    ghost Value = { seen.Waiters };

    ghost use Rattle.futex.specs.Kept.{AreApart};

    ghost view = { λ w. record { waiters = w.list.items; spare = vec_capacity w.list - vec_len w.list } };

    ghost invariant = { λ w. AreApart w.list.items };
}

impl Waiters {
    /// No waiters. It takes no memory yet.
    pub fn new(alloc: Global) -> Waiters
        ensures { result.waiters ≡ [] }
    {
        Waiters {
            list: Vec::new(alloc),
        }
    }

    /// Makes room for one more waiter. A refusal leaves the waiters as they were.
    pub fn reserve(&mut self) -> Result<(), AllocError>
        ensures waiters { self.new.waiters ≡ self.old.waiters }
        ensures room { OnOk result (0 < self.new.spare) }
    {
        self.list.reserve(1)
    }

    /// From now on a thread waits at a cell, with a limit or without. Its number is below 64, and it does not wait yet. It goes into
    /// room that is there, and takes one place of it at most.
    #[tactic(auto, using(crate::proofs::Apart::apart_more))]
    pub fn wait(&mut self, thread: u32, cell: CellId, timed: bool)
        requires room { 0 < self.old.spare }
        requires below { thread < 64 }
        requires goes_on { find (is_of thread) self.old.waiters ≡ None }
        ensures waiters { self.new.waiters ≡ self.old.waiters ++ record { thread = thread; cell = cell; timed = timed } ∷ [] }
        ensures spare { self.old.spare ≤ self.new.spare + 1 }
    {
        self.list.push_reserved(Waiter {
            thread,
            cell,
            timed,
        });
    }

    /// Wakes the threads that have waited at a cell longest: as many as the count, or all where fewer wait there. These wait no more;
    /// the others wait on in their order. The room does not shrink.
    #[tactic(auto, using(crate::proofs::Apart::apart_kept, crate::proofs::Apart::kept_is_without, crate::proofs::Apart::few))]
    pub fn wake(&mut self, cell: CellId, count: u32) -> Woken
        ensures woken { result ≡ threads_of (oldest_at cell count self.old.waiters) }
        ensures others { self.new.waiters ≡ without (oldest_at cell count self.old.waiters) self.old.waiters }
        ensures spare { self.old.spare ≤ self.new.spare }
    {
        let woken = oldest_at(&self.list, cell, count);
        keep_others(&mut self.list, woken.as_slice());
        woken
    }

    /// The threads that `wake` would wake. Nothing changes.
    #[tactic(auto, using(crate::proofs::Apart::few))]
    pub fn waking(&self, cell: CellId, count: u32) -> Woken
        ensures { result ≡ threads_of (oldest_at cell count self.now.waiters) }
    {
        oldest_at(&self.list, cell, count)
    }

    /// Each thread waits once at most.
    pub fn are_apart(&self)
        ensures { AreApart self.now.waiters }
    {
        let _count = self.list.len();
    }

    /// The cell at which a thread waits; None exactly where it does not wait.
    pub fn waiting(&self, thread: u32) -> Option<CellId>
        ensures { result ≡ cell_of (find (is_of thread) self.now.waiters) }
    {
        let waiter = find(&self.list, thread)?;
        Some(waiter.cell)
    }

    /// The cell at which a thread waits with a limit; None exactly where it does not wait, or waits without one.
    pub fn timed(&self, thread: u32) -> Option<CellId>
        ensures { result ≡ timed_cell_of (find (is_of thread) self.now.waiters) }
    {
        let waiter = find(&self.list, thread)?;
        if waiter.timed {
            Some(waiter.cell)
        } else {
            None
        }
    }

    /// A thread that waits does so no more. The others wait on in their order. The room does not shrink.
    #[tactic(auto, using(crate::proofs::Apart::apart_kept, crate::proofs::Apart::one_is_without))]
    pub fn leave(&mut self, thread: u32)
        requires { IsSome (find (is_of thread) self.old.waiters) }
        ensures waiters { IfSome (find (is_of thread) self.old.waiters) (λ w. self.new.waiters ≡ without (w ∷ []) self.old.waiters) }
        ensures spare { self.old.spare ≤ self.new.spare }
    {
        keep_others(&mut self.list, &[thread]);
    }
}

/// The waiter that is a thread.
#[tactic(auto, using(crate::proofs::Finding::finding))]
fn find(list: &[Waiter], thread: u32) -> Option<Waiter>
    ensures { result ≡ find (is_of thread) list.now }
{
    for n in 0..list.len() {
        let waiter = list[n];
        if waiter.thread == thread {
            return Some(waiter);
        }
    }
    None
}

/// Whether a waiter is at a cell.
fn is_at(cell: CellId, waiter: Waiter) -> bool
    ensures { result ≡ is_at cell waiter }
{
    waiter.cell.object == cell.object && waiter.cell.at == cell.at
}

/// Looks at one waiter more, which is woken where it is at the cell and fewer were woken than so many.
#[tactic(auto, unfolding(crate::specs::Kept::with_next))]
fn add_next(woken: &mut Woken, next: Waiter, cell: CellId, count: u32)
    requires { length woken.old < 64 }
    ensures { woken.new ≡ with_next cell count next woken.old }
{
    if woken.len() < count as usize && is_at(cell, next) {
        woken.add(next.thread);
    }
}

/// The threads that have waited at a cell longest, so many at most.
#[tactic(auto, using(crate::proofs::Oldest::oldest))]
fn oldest_at(list: &[Waiter], cell: CellId, count: u32) -> Woken
    requires { length list.now ≤ 64 }
    ensures { result ≡ threads_of (oldest_at cell count list.now) }
{
    let mut woken = Woken::new();
    for n in 0..list.len() {
        add_next(&mut woken, list[n], cell, count);
    }
    woken
}

fn is_among(threads: &[u32], thread: u32) -> bool
    ensures { result ≡ list_any (λ t. t == thread) threads.now }
{
    threads.iter().any(|one| *one == thread)
}

/// Keeps the waiters that are none of these threads, in their order. The room that was there stays.
fn keep_others(list: &mut Vec<Waiter>, gone: &[u32])
    ensures kept { list.new.items ≡ other_than gone.now list.old.items }
    ensures length { vec_len list.new ≤ vec_len list.old }
    ensures capacity { vec_capacity list.old ≤ vec_capacity list.new }
{
    list.retain(|waiter| !is_among(gone, waiter.thread));
}
