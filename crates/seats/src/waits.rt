// Threads that wait, and those that run again.
ghost use Rattle.std.specs.Prelude.{◌≡◌, ◌<◌, ◌∷◌, ◌++◌, [], None, Some, OnOk, OnErr, length, slice_get};
ghost use Rattle.std.specs.List.{find};
ghost use Rattle.futex.specs.Waiting.{is_of};
ghost use Rattle.mu_threads.specs.Threads.{IsLeft};
ghost use Rattle.seats.specs.Kept.{waiting_if, running, all_running, HeldAreLeft, AllBelow};

use futex::Waiters;
use mu_threads::Threads;
use mu_values::CellId;
use std::alloc::AllocError;

/// A thread waits at a cell. A refusal leaves all as it was.
pub(crate) fn wait(
    threads: &mut Threads,
    waiters: &mut Waiters,
    thread: u32,
    cell: CellId,
    timed: bool,
) -> Result<(), AllocError>
    requires left { IsLeft (slice_get threads.old.states thread) }
    requires below { thread < 64 }
    requires goes_on { find (is_of thread) waiters.old.waiters ≡ None }
    ensures threads { OnOk result (threads.new ≡ waiting_if timed threads.old thread) }
    ensures waiters { OnOk result (waiters.new.waiters ≡ waiters.old.waiters ++ record { thread = thread; cell = cell; timed = timed } ∷ []) }
    ensures same_threads { OnErr result (threads.new ≡ threads.old) }
    ensures same_waiters { OnErr result (waiters.new.waiters ≡ waiters.old.waiters) }
{
    waiters.reserve()?;
    waiters.wait(thread, cell, timed);
    if !timed {
        threads.set_waiting(thread, true);
    }
    Ok(())
}

/// A thread runs again, where it is left.
pub(crate) fn run_again(threads: &mut Threads, thread: u32)
    requires made { thread < length threads.old.states }
    requires left { HeldAreLeft threads.old }
    ensures { threads.new ≡ running threads.old thread }
{
    if threads.holds(thread) {
        threads.set_waiting(thread, false);
    }
}

/// These threads run again, where they are left.
#[tactic(auto, using(crate::proofs::Waking::run_on))]
pub(crate) fn run_all_again(threads: &mut Threads, ones: &[u32])
    requires made { AllBelow (length threads.old.states) ones.now }
    requires left { HeldAreLeft threads.old }
    ensures { threads.new ≡ all_running ones.now threads.old }
{
    for n in 0..ones.len() {
        run_again(threads, one_at(ones, n));
    }
}

fn one_at(ones: &[u32], n: usize) -> u32
    requires { n < length ones.now }
    ensures { slice_get ones.now n ≡ Some result }
{
    ones[n]
}
