// Clocks by the numbers under which they are kept.
ghost use Rattle.std.specs.Prelude.{◌≡◌, ℕ, ◌+◌, ◌<◌, ◌≤◌, max, length};
ghost use Rattle.clocks.specs.Knowing.{known_by};
ghost use Rattle.clocks.specs.KeptClocks.{kept_at, Grown};

use crate::clock::Clock;
use crate::clock_list::ClockList;

/// The clock under a number. Under 0 there is none.
pub fn clock_under(clocks: &ClockList, number: u32) -> Option<Clock>
    ensures { (u : ℕ) → known_by result u ≡ kept_at clocks.now number u }
{
    if number == 0 {
        return None;
    }
    clocks.of(number - 1)
}

/// Keeps what a clock and the one under a number know together, and gives the number of that. Where there is no clock, it is
/// the number that there is.
pub fn keep_with(clocks: &mut ClockList, given: &Option<Clock>, number: u32) -> u32
    requires room { 0 < clocks.old.spare }
    requires there { number ≤ length clocks.old.ends }
    ensures kept { (u : ℕ) → kept_at clocks.new result u ≡ max (known_by given.now u) (kept_at clocks.old number u) }
    ensures there { result ≤ length clocks.new.ends }
    ensures grown { Grown clocks.old clocks.new }
    ensures spare { clocks.old.spare ≤ clocks.new.spare + 1 }
{
    let Some(given) = given else {
        return number;
    };
    match clock_under(clocks, number) {
        Some(mut clock) => {
            clock.join(given);
            clocks.push(&clock);
        }
        None => clocks.push(given),
    }
    clocks.len()
}
