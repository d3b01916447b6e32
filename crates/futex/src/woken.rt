// Threads that are woken.
ghost use Rattle.std.specs.Prelude.{◌≡◌, ◌<◌, ◌≤◌, [], ◌∷◌, ◌++◌, Some, length, slice_get};

use std::marker::Model;

/// So many threads wait at most.
const MOST_THREADS: usize = 64;

/// The numbers of threads that are woken, the one that waited longest first. Contracts see their list.
#[derive(Drop)]
pub struct Woken {
    threads: [u32; MOST_THREADS],
    count: usize,
}

impl Model for Woken {
    ghost use Rattle.std.specs.Prelude.{ℕ, ◌≤◌, List, take};

    ghost Value = { List ℕ };

    ghost view = { λ w. take w.count w.threads };

    ghost invariant = { λ w. w.count ≤ 64 };
}

impl Woken {
    /// No threads.
    pub(crate) fn new() -> Woken
        ensures { result ≡ [] }
    {
        Woken {
            threads: [0; MOST_THREADS],
            count: 0,
        }
    }

    /// How many they are.
    pub fn len(&self) -> usize
        ensures { result ≡ length self.now }
    {
        self.count
    }

    /// The same, of which there are 64 at most.
    pub fn count(&self) -> u32
        ensures is { result ≡ length self.now }
        ensures few { result ≤ 64 }
    {
        self.count as u32
    }

    /// The n-th of them, counted from 0.
    pub fn at(&self, n: usize) -> u32
        requires { n < length self.now }
        ensures { slice_get self.now n ≡ Some result }
    {
        self.as_slice()[n]
    }

    /// All of them.
    pub fn as_slice(&self) -> &[u32]
        ensures { result.now ≡ self.now }
    {
        &self.threads[..self.count]
    }

    /// Adds one that waited shorter than these.
    pub(crate) fn add(&mut self, thread: u32)
        requires { length self.old < 64 }
        ensures { self.new ≡ self.old ++ thread ∷ [] }
    {
        self.threads[self.count] = thread;
        self.count += 1;
    }
}
