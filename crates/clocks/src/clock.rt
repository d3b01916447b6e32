// What is known of each thread.
ghost use Rattle.std.specs.Prelude.{◌≡◌, ℕ, suc, ◌<◌, ◌≤◌, ◌==◌, ◌↔◌, if◌then◌else◌, List, length, max, replicate, slice_index, IsTrue};

use std::marker::Model;

/// What is known: for each of 64 threads the least number above all events of the thread that are known. Contracts see the
/// list of these numbers.
#[derive(Clone, Copy)]
pub struct Clock {
    known: [u32; 64],
}

impl Model for Clock {
    ghost Value = { List ℕ };

    ghost view = { λ c. c.known };

    ghost inverse = { λ v. record { known = v } };
}

impl Clock {
    /// A clock that knows nothing: 64 times 0.
    pub fn new() -> Clock
        ensures zeros { result ≡ replicate 64 0 }
        ensures nothing { (u : ℕ) → slice_index result u ≡ 0 }
    {
        Clock { known: [0; 64] }
    }

    /// A clock that knows all events below a number.
    pub fn below(number: u32) -> Clock
        ensures { (u : ℕ) → u < 64 → slice_index result u ≡ number }
    {
        Clock {
            known: [number; 64],
        }
    }

    /// Whether it knows nothing.
    pub fn is_nothing(&self) -> bool
        ensures { IsTrue result ↔ (self.now ≡ replicate 64 0) }
    {
        self.known == [0; 64]
    }

    /// The number of a thread.
    pub fn of(&self, thread: usize) -> u32
        requires { thread < 64 }
        ensures { result ≡ slice_index self.now thread }
    {
        self.known[thread]
    }

    /// A clock of these numbers for the first threads, and 0 for the others.
    pub fn of_numbers(numbers: &[u32]) -> Clock
        requires { length numbers.now ≤ 64 }
        ensures { (u : ℕ) → slice_index result u ≡ slice_index numbers.now u }
    {
        let mut known = [0; 64];
        for (t, number) in numbers.iter().enumerate() {
            known[t] = *number;
        }
        Clock { known }
    }

    /// The numbers of the threads up to the last whose number is not 0.
    pub fn numbers(&self) -> &[u32]
        ensures small { length result.now ≤ 64 }
        ensures same { (u : ℕ) → slice_index result.now u ≡ slice_index self.now u }
    {
        &self.known[..width(&self.known)]
    }

    /// Takes the greater number for each thread, so that it knows what either knew.
    pub fn join(&mut self, other: &Clock)
        ensures { (u : ℕ) → slice_index self.new u ≡ max (slice_index self.old u) (slice_index other.now u) }
    {
        join_arrays(&mut self.known, &other.known);
    }

    /// Makes the thread know its event with this number, and no later one.
    pub fn set(&mut self, thread: usize, number: u32)
        requires thread { thread < 64 }
        requires number { number < 4294967295 }
        ensures { (u : ℕ) → slice_index self.new u ≡ (if u == thread then suc number else slice_index self.old u) }
    {
        self.known[thread] = number + 1;
    }
}

/// For how many threads there are numbers: one more than the last thread whose number is not 0.
fn width(known: &[u32; 64]) -> usize
    ensures small { result ≤ 64 }
    ensures rest { (u : ℕ) → result ≤ u → slice_index known.now u ≡ 0 }
{
    let mut width: u32 = 0;
    for t in 0..64 {
        // A greatest number, and no way out before the end, lets the compiler look at several numbers at once.
        width = width.max(if known[t as usize] == 0 { 0 } else { t + 1 });
    }
    width as usize
}

fn join_arrays(known: &mut [u32; 64], other: &[u32; 64])
    ensures { (u : ℕ) → slice_index known.new u ≡ max (slice_index known.old u) (slice_index other.now u) }
{
    for t in 0..64 {
        // A store on every path lets the compiler join several numbers at once.
        known[t] = known[t].max(other[t]);
    }
}
