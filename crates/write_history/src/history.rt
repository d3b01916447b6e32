// The values of one cell.
ghost use Rattle.std.specs.Prelude.{◌≡◌, ℕ, ◌+◌, ◌-◌, ◌*◌, ◌^◌, ◌<◌, ◌≤◌, [], ◌∷◌, ◌++◌, length, take, slice_get, OnOk};
ghost use Rattle.write_history.specs.Occurrences.{occurrences, IsOther};

use crate::groups::{Groups, grouped};
use crate::room::make_room;
use mem_axioms::event_facts::is_same_scalar;
use mu_base::Steps;
use mu_values::Scalar;
use std::alloc::{AllocError, Global};
use std::marker::Model;
use std::sync::ledger::Ledger;

/// So many values are looked at in turn. A history that has more of them groups its positions by value.
const FEW: usize = 64;

/// The values of one cell. Contracts see the list of them by position, the initial scalar first, and `spare`, the number
/// of further values that `push` takes. Positions are below 2^32 - 1.
#[derive(Drop)]
pub struct History {
    values: Vec<Scalar>,
    // The same values, once there are more than a few.
    groups: Option<Box<Groups>>,
}

impl Model for History {
    ghost use Rattle.std.specs.Prelude.{◌≡◌, ◌-◌, ◌≤◌, min, vec_len, vec_capacity, MatchOption};
    ghost use Rattle.std.specs.Option.{option_map_or};
    ghost use Rattle.write_history.specs.Rooms.{Values};

    ghost Value = { Values };

    ghost view = { λ a. record { values = a.values.items; spare = min (vec_capacity a.values - vec_len a.values) (option_map_or (λ groups. groups.value.spare) a.groups (64 - vec_len a.values)) } };

    ghost invariant = { λ a. (vec_len a.values ≤ 4294967295) × MatchOption a.groups (vec_len a.values ≤ 64) (λ groups. groups.value.values ≡ a.values.items) };
}

/// How many of the values below that position are this one. It looks at each of them in turn, and counts each as one step.
fn count_in_turn<L: Ledger>(
    values: &[Scalar],
    value: Scalar,
    position: u32,
    steps: &mut Steps<L>,
) -> u32
    requires { length values.now ≤ 64 }
    ensures count { result ≡ occurrences value (take position values.now) }
    ensures cost { steps.new ≤ steps.old + 64 }
{
    let mut count = 0;
    let end = values.len().min(position as usize);
    for index in 0..end {
        steps.tick();
        if is_same_scalar(values[index], value) {
            count += 1;
        }
    }
    count
}

/// The position with another value, below which so many have another value. It looks at each in turn, and counts each as one
/// step.
fn other_in_turn<L: Ledger>(
    values: &[Scalar],
    value: Scalar,
    below: u32,
    steps: &mut Steps<L>,
) -> u32
    requires few { length values.now ≤ 64 }
    requires there { below + occurrences value values.now < length values.now }
    ensures other { IsOther value values.now below result }
    ensures cost { steps.new ≤ steps.old + 64 }
{
    let mut others = 0;
    for index in 0..values.len() {
        steps.tick();
        if !is_same_scalar(values[index], value) {
            if others == below {
                return index as u32;
            }
            others += 1;
        }
    }
    unreachable!()
}

impl History {
    /// A history with no values. It takes no memory yet.
    pub fn new(alloc: Global) -> Self
        ensures { result.values ≡ [] }
    {
        History {
            values: Vec::new(alloc),
            groups: None,
        }
    }

    /// Makes room for one more value. A refusal leaves the values as they were.
    pub fn reserve(&mut self) -> Result<(), AllocError>
        ensures values { self.new.values ≡ self.old.values }
        ensures room { OnOk result (0 < self.new.spare) }
        ensures spare { self.old.spare ≤ self.new.spare }
    {
        self.reserve_many(1)
    }

    /// Makes room for that many more. A refusal leaves the values as they were.
    pub fn reserve_many(&mut self, count: usize) -> Result<(), AllocError>
        ensures values { self.new.values ≡ self.old.values }
        ensures room { OnOk result (count ≤ self.new.spare) }
        ensures spare { self.old.spare ≤ self.new.spare }
    {
        make_room(&mut self.values, count)?;
        if let Some(groups) = &mut self.groups {
            return groups.reserve(count);
        }
        if FEW - self.values.len() < count {
            let alloc = *self.values.allocator();
            let groups = grouped(alloc, &self.values, count)?;
            self.groups = Some(Box::new(alloc, groups)?);
        }
        Ok(())
    }

    /// Adds the value of the next position, into room that is there. The first is the initial scalar, at position 0.
    pub fn push(&mut self, value: Scalar)
        requires room { 0 < self.old.spare }
        requires few { length self.old.values < 4294967295 }
        ensures values { self.new.values ≡ self.old.values ++ value ∷ [] }
        ensures spare { self.old.spare ≤ self.new.spare + 1 }
    {
        self.values.push_reserved(value);
        if let Some(groups) = &mut self.groups {
            groups.add(&self.values, value);
        }
    }

    /// The newest position, once the initial scalar was pushed.
    pub fn newest(&self) -> u32
        requires { 0 < length self.now.values }
        ensures newest { result + 1 ≡ length self.now.values }
        ensures few { length self.now.values ≤ 4294967295 }
    {
        (self.values.len() - 1) as u32
    }

    /// The value at a position that there is. It looks at one entry, and counts it as one step.
    pub fn value<L: Ledger>(&self, position: u32, steps: &mut Steps<L>) -> Scalar
        requires { position < length self.now.values }
        ensures value { slice_get self.now.values position ≡ Some result }
        ensures cost { steps.new ≡ steps.old + 1 }
    {
        steps.tick();
        self.values[position as usize]
    }

    /// How many positions below that one hold the value. At most 64 values are looked at in turn. More are kept in the order of
    /// values too, and are searched by halves. It counts each look as one step: at most d + 64 for every d with fewer than 2^d
    /// values.
    pub fn count_below<L: Ledger>(&self, value: Scalar, position: u32, steps: &mut Steps<L>) -> u32
        ensures count { result ≡ occurrences value (take position self.now.values) }
        ensures cost { (d : ℕ) → length self.now.values < 2 ^ d → steps.new ≤ steps.old + (d + 64) }
    {
        match &self.groups {
            Some(groups) => groups.count_below(&self.values, value, position, steps),
            None => count_in_turn(&self.values, value, position, steps),
        }
    }

    /// The position with another value, below which so many have another value. It looks as `count_below` does, and counts as
    /// many steps.
    pub fn other_at<L: Ledger>(&self, value: Scalar, below: u32, steps: &mut Steps<L>) -> u32
        requires there { below + occurrences value self.now.values < length self.now.values }
        ensures other { IsOther value self.now.values below result }
        ensures cost { (d : ℕ) → length self.now.values < 2 ^ d → steps.new ≤ steps.old + (d + 64) }
    {
        match &self.groups {
            Some(groups) => groups.other_at(&self.values, value, below, steps),
            None => other_in_turn(&self.values, value, below, steps),
        }
    }

    /// How many of the positions from one up to another, that one not among them, hold another value. It counts as many steps
    /// as `count_below` at both.
    pub fn count_others<L: Ledger>(
        &self,
        value: Scalar,
        from: u32,
        end: u32,
        steps: &mut Steps<L>,
    ) -> u32
        requires from { from ≤ end }
        requires end { end ≤ length self.now.values }
        ensures count { result + occurrences value (take end self.now.values) ≡ end - from + occurrences value (take from self.now.values) }
        ensures at_most { result ≤ end - from }
        ensures cost { (d : ℕ) → length self.now.values < 2 ^ d → steps.new ≤ steps.old + (2 * d + 128) }
    {
        let before = self.count_below(value, from, steps);
        let upto = self.count_below(value, end, steps);
        let same = upto - before;
        let all = end - from;
        all - same
    }
}
