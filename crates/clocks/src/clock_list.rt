// Clocks in a list.
ghost use Rattle.std.specs.Prelude.{◌≡◌, ℕ, ◌+◌, ◌<◌, ◌≤◌, ◌==◌, ◌++◌, if◌then◌else◌, length, slice_index, vec_len, vec_capacity, OnOk};
ghost use Rattle.clocks.specs.Spans.{begin_in, span_at};
ghost use Rattle.clocks.specs.Knowing.{known_by};

use crate::clock::Clock;
use std::alloc::{AllocError, Global};
use std::marker::Model;

/// More clocks than this have more numbers than a `u32` counts.
const MOST_CLOCKS: usize = 67108863;

/// Clocks in the order in which they were put, at places from 0. A clock that was put never changes, so of each only the
/// numbers up to the last that is not 0 are kept.
#[derive(Drop)]
pub struct ClockList {
    // For each place how many numbers are kept up to it, its own included.
    ends: Vec<u32>,
    numbers: Vec<u32>,
    // For how many more clocks there is room, whatever they know.
    spare: usize,
}

impl Model for ClockList {
    ghost use Rattle.std.specs.Prelude.{◌+◌, ◌*◌, ◌≤◌, vec_len, vec_capacity};
    ghost use Rattle.clocks.specs.Spans.{Spans, Laid};

    ghost Value = { Spans };

    ghost view = { λ a. record { ends = a.ends.items; numbers = a.numbers.items; spare = a.spare } };

    ghost invariant = { λ a. record { laid : Laid a.ends.items a.numbers.items; ends_room : vec_len a.ends + a.spare ≤ vec_capacity a.ends; numbers_room : vec_len a.numbers + 64 * a.spare ≤ vec_capacity a.numbers; counted : vec_len a.numbers + 64 * a.spare ≤ 4294967295; few : vec_len a.ends + a.spare ≤ 4294967295 } };
}

impl ClockList {
    /// No clocks. It takes no memory yet.
    pub fn new(alloc: Global) -> Self
        ensures none { length result.ends ≡ 0 }
        ensures nothing { (p u : ℕ) → span_at result p u ≡ 0 }
    {
        ClockList {
            ends: Vec::new(alloc),
            numbers: Vec::new(alloc),
            spare: 0,
        }
    }

    /// Makes room for that many more clocks. It is refused too where the clocks or their numbers would be more than a `u32`
    /// counts.
    pub fn reserve(&mut self, count: usize) -> Result<(), AllocError>
        ensures len { length self.new.ends ≡ length self.old.ends }
        ensures same { (p u : ℕ) → span_at self.new p u ≡ span_at self.old p u }
        ensures room { OnOk result (count ≤ self.new.spare) }
        ensures spare { self.old.spare ≤ self.new.spare }
    {
        if count <= self.spare {
            return Ok(());
        }
        if count > MOST_CLOCKS
            || self.numbers.len() > 4294967295 - 64 * count
            || self.ends.len() > 4294967295 - count
        {
            return Err(AllocError);
        }
        self.ends.reserve(count)?;
        self.numbers.reserve(64 * count)?;
        self.spare = count;
        Ok(())
    }

    /// Puts a clock at the next place.
    pub fn push(&mut self, clock: &Clock)
        requires { 0 < self.old.spare }
        ensures pushed { (p u : ℕ) → span_at self.new p u ≡ (if p == length self.old.ends then slice_index clock.now u else span_at self.old p u) }
        ensures len { length self.new.ends ≡ length self.old.ends + 1 }
        ensures spare { self.old.spare ≤ self.new.spare + 1 }
    {
        append(&mut self.numbers, clock.numbers());
        self.ends.push_reserved(self.numbers.len() as u32);
        self.spare -= 1;
    }

    /// How many clocks there are, which is the next place.
    pub fn len(&self) -> u32
        ensures { result ≡ length self.now.ends }
    {
        self.ends.len() as u32
    }

    /// The clock at a place; None where nothing is known there.
    pub fn of(&self, place: u32) -> Option<Clock>
        ensures { (u : ℕ) → known_by result u ≡ span_at self.now place u }
    {
        let place = place as usize;
        if self.ends.len() <= place {
            return None;
        }
        let start = start_of(&self.ends, place);
        let end = self.ends[place] as usize;
        if start == end {
            return None;
        }
        Some(Clock::of_numbers(&self.numbers[start..end]))
    }
}

/// Adds numbers, into room that is there.
fn append(numbers: &mut Vec<u32>, more: &[u32])
    requires { vec_len numbers.old + length more.now ≤ vec_capacity numbers.old }
    ensures items { numbers.new.items ≡ numbers.old.items ++ more.now }
    ensures len { vec_len numbers.new ≡ vec_len numbers.old + length more.now }
    ensures capacity { vec_capacity numbers.old ≤ vec_capacity numbers.new }
{
    let added: Result<_, _> = numbers.extend_from_slice(more);
    added.unwrap();
}

/// Where the numbers of a place begin: where those of the place before end.
fn start_of(ends: &[u32], place: usize) -> usize
    requires { place ≤ length ends.now }
    ensures { result ≡ begin_in ends.now place }
{
    if place == 0 {
        return 0;
    }
    ends[place - 1] as usize
}
