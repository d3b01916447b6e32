// Look-ups in indexes by thread, one for each of the threads that were made.
ghost use Rattle.std.specs.Prelude.{◌≡◌, ℕ, ◌+◌, ◌*◌, ◌^◌, ◌<◌, ◌≤◌, ◌==◌, ◌⊎◌, List, [], None, if◌then◌else◌, max, length, slice_index, unwrap_or, All, Contains, MatchOption};
ghost use Rattle.write_history.specs.Indexes.{last_position, first_after};
ghost use Rattle.write_history.specs.declared.access_index.Entry.{Entry};
ghost use Rattle.view_parts.specs.LookUps.{position_known, FirstAfter, earlier, LeastOf};

use clocks::Clock;
use mu_base::Steps;
use std::sync::ledger::Ledger;
use write_history::AccessIndex;

/// Entries that are found by thread.
pub trait ByThread {
    /// The entries of each thread, newest first.
    ghost entries: { Self → ℕ → List Entry };

    /// The index of a thread, if it has one. A thread without one has no entries.
    fn index(&self, thread: usize) -> Option<&AccessIndex>
        ensures { MatchOption result (entries self.now thread ≡ []) (λ found. found.now.accesses ≡ entries self.now thread) };
}

/// The last position of a thread up to a number, or 0.
fn floor_at<E: ByThread, L: Ledger>(
    indexes: &E,
    thread: usize,
    known: u32,
    steps: &mut Steps<L>,
) -> u32
    ensures found { result ≡ unwrap_or (last_position known (E.entries indexes.now thread)) 0 }
    ensures cost { (d : ℕ) → length (E.entries indexes.now thread) < 2 ^ d → steps.new ≤ steps.old + (d + 1) }
{
    match indexes.index(thread) {
        Some(index) => index.floor(known, steps).unwrap_or(0),
        None => 0,
    }
}

/// The greatest position that a clock knows, or 0, by one look-up for each thread.
pub fn floor_over<E: ByThread, L: Ledger>(
    indexes: &E,
    threads: &[u32],
    clock: &Clock,
    steps: &mut Steps<L>,
) -> u32
    requires few { All (λ t. t < 64) threads.now }
    requires made { (u : ℕ) → Contains threads.now u ⊎ (E.entries indexes.now u ≡ []) }
    ensures above { (u : ℕ) → position_known (E.entries indexes.now) clock.now u ≤ result }
    ensures least { (p : ℕ) → ((u : ℕ) → position_known (E.entries indexes.now) clock.now u ≤ p) → result ≤ p }
    ensures cost { (d : ℕ) → ((u : ℕ) → length (E.entries indexes.now u) < 2 ^ d) → steps.new ≤ steps.old + length threads.now * (d + 1) }
{
    let mut greatest = 0;
    for thread in threads {
        let thread = *thread as usize;
        greatest = greater(greatest, floor_at(indexes, thread, clock.of(thread), steps));
    }
    greatest
}

/// The greater of two numbers.
pub fn greater(a: u32, b: u32) -> u32
    ensures { result ≡ max a b }
{
    if a < b { b } else { a }
}

/// The first entry of a thread, another than the given one, after a number.
fn after_at<E: ByThread, L: Ledger>(
    indexes: &E,
    thread: usize,
    own: usize,
    known: u32,
    steps: &mut Steps<L>,
) -> Option<u32>
    ensures found { result ≡ (if thread == own then None else first_after known (E.entries indexes.now thread)) }
    ensures cost { (d : ℕ) → length (E.entries indexes.now thread) < 2 ^ d → steps.new ≤ steps.old + (d + 1) }
{
    if thread == own {
        return None;
    }
    match indexes.index(thread) {
        Some(index) => index.after(known, steps),
        None => None,
    }
}

fn earlier_of(a: Option<u32>, b: Option<u32>) -> Option<u32>
    ensures { result ≡ earlier a b }
{
    match (a, b) {
        (None, other) => other,
        (Some(x), None) => Some(x),
        (Some(x), Some(y)) => { if x < y { Some(x) } else { Some(y) } }
    }
}

/// The first entry of another thread than the given one that a clock does not know, by one look-up for each thread.
pub fn first_unknown<E: ByThread, L: Ledger>(
    indexes: &E,
    threads: &[u32],
    own: usize,
    clock: &Clock,
    steps: &mut Steps<L>,
) -> Option<u32>
    requires few { All (λ t. t < 64) threads.now }
    requires made { (u : ℕ) → Contains threads.now u ⊎ (E.entries indexes.now u ≡ []) }
    ensures least { LeastOf (λ i. (u : ℕ) × FirstAfter (E.entries indexes.now) clock.now own u i) result }
    ensures cost { (d : ℕ) → ((u : ℕ) → length (E.entries indexes.now u) < 2 ^ d) → steps.new ≤ steps.old + length threads.now * (d + 1) }
{
    let mut least = None;
    for thread in threads {
        let thread = *thread as usize;
        least = earlier_of(
            least,
            after_at(indexes, thread, own, clock.of(thread), steps),
        );
    }
    least
}
