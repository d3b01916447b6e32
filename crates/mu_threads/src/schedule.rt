// What picks take.
ghost use Rattle.std.specs.Prelude.{◌≡◌, ◌<◌, ◌≤◌, [], drop, length};
ghost use Rattle.mu_threads.specs.Picks.{pick};

use mu_base::Ids;
use std::alloc::Global;
use std::marker::Model;

/// The numbers that decide the picks of a run, one after another. Contracts see those that are left.
#[derive(Drop)]
pub struct Schedule {
    numbers: Ids,
    // How many were taken.
    taken: usize,
}

impl Model for Schedule {
    ghost use Rattle.std.specs.Prelude.{ℕ, ◌≤◌, List, length, drop};

    ghost Value = { List ℕ };

    ghost view = { λ s. drop s.taken s.numbers.members };

    ghost invariant = { λ s. s.taken ≤ length s.numbers.members };
}

impl Schedule {
    /// A schedule that is spent: each pick is 0. It takes no memory.
    pub fn new(alloc: Global) -> Schedule
        ensures { result ≡ [] }
    {
        Schedule::from_numbers(Ids::new(alloc))
    }

    /// These numbers, in their order.
    pub fn from_numbers(numbers: Ids) -> Schedule
        ensures { result ≡ numbers.members }
    {
        Schedule { numbers, taken: 0 }
    }

    /// Picks one of so many options, of which there is one at least, by its number from 0: the next number of the schedule modulo
    /// the options, which is taken, or 0 where the schedule is spent. With one option nothing is taken. It takes constant time and
    /// no memory.
    pub fn pick(&mut self, options: u32) -> u32
        requires { 0 < options }
        ensures picked { result ≡ (pick options self.old).0 }
        ensures left { self.new ≡ (pick options self.old).1 }
    {
        let picked = self.look(0, options);
        if options > 1 && self.taken < self.numbers.len() {
            self.taken += 1;
        }
        picked
    }

    /// What `pick` would answer after `skip` more numbers were taken. Nothing is taken. It takes constant time and no memory.
    pub fn look(&self, skip: u32, options: u32) -> u32
        requires { 0 < options }
        ensures { result ≡ (pick options (drop skip self.now)).0 }
    {
        if options == 1 {
            return 0;
        }
        match self.left().get(skip as usize) {
            Some(number) => *number % options,
            None => 0,
        }
    }

    /// Takes so many numbers, or all where fewer are left. It takes constant time and no memory.
    pub fn skip(&mut self, many: u32)
        ensures { self.new ≡ drop many self.old }
    {
        let left = self.numbers.len() - self.taken;
        if (many as usize) < left {
            self.taken += many as usize;
        } else {
            self.taken = self.numbers.len();
        }
    }

    /// The numbers that are left.
    fn left(&self) -> &[u32]
        ensures { result.now ≡ self.now }
    {
        &self.numbers.as_slice()[self.taken..]
    }
}
