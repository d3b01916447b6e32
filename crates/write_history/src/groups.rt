// The positions of a cell by the values that they hold.
ghost use Rattle.std.specs.Prelude.{◌≡◌, ℕ, ◌+◌, ◌-◌, ◌^◌, ◌<◌, ◌≤◌, [], ◌∷◌, ◌++◌, length, take, OnOk, IfOk};
ghost use Rattle.write_history.specs.ByValue.{value_in};
ghost use Rattle.write_history.specs.Occurrences.{occurrences, IsOther};
ghost use Rattle.write_history.specs.Searching.{LastIn};

use crate::finding::{Positions, Sought, last};
use crate::past::Past;
use crate::runs::{Starts, settle};
use mu_base::Steps;
use mu_values::Scalar;
use std::alloc::{AllocError, Global};
use std::marker::{Brand, Model};
use std::sync::ledger::{Blank, Ledger};

/// The positions of a cell in the order of their values. Contracts see the list of values by position, and `spare`, the number
/// of further values that `add` takes. It keeps no value: each call is lent the list of them.
#[derive(Drop)]
pub(crate) struct Groups {
    values: Past<Scalar>,
    // By position: how many earlier positions have its value.
    ranks: Vec<u32>,
    // The positions, in four runs, each in the order of values.
    order: Vec<u32>,
    starts: Starts,
    // Room in which runs are merged.
    merged: Vec<u32>,
}

impl Model for Groups {
    ghost use Rattle.std.specs.Prelude.{◌-◌, min, reverse, length, vec_capacity};
    ghost use Rattle.write_history.specs.Rooms.{Values};
    ghost use Rattle.write_history.specs.Grouped.{IsGrouped};

    ghost Value = { Values };

    ghost view = { λ a. record { values = reverse a.values.items; spare = min (vec_capacity a.order - length a.order.items) (min (vec_capacity a.ranks - length a.ranks.items) (vec_capacity a.merged - length a.order.items)) } };

    ghost invariant = { λ a. IsGrouped (reverse a.values.items) a.ranks.items a.order.items a.starts };
}

impl Groups {
    /// No positions. It takes no memory yet.
    pub(crate) fn new(alloc: Global) -> Self
        ensures { result.values ≡ [] }
    {
        Groups {
            values: Past::new(),
            ranks: Vec::new(alloc),
            order: Vec::new(alloc),
            starts: Starts {
                second: 0,
                third: 0,
                fourth: 0,
            },
            merged: Vec::new(alloc),
        }
    }

    /// Makes room for that many more. A refusal leaves the values as they were.
    pub(crate) fn reserve(&mut self, count: usize) -> Result<(), AllocError>
        ensures values { self.new.values ≡ self.old.values }
        ensures room { OnOk result (count ≤ self.new.spare) }
        ensures spare { self.old.spare ≤ self.new.spare }
    {
        self.ranks.reserve(count)?;
        self.order.reserve(count)?;
        self.merged.clear();
        self.merged.reserve(self.order.len() + count)
    }

    /// The last position that is sought, of those with the values.
    fn last<L: Ledger>(
        &self,
        values: &[Scalar],
        sought: Sought,
        steps: &mut Steps<L>,
    ) -> Option<u32>
        requires { values.now ≡ self.now.values }
        ensures found { LastIn self.now.values sought 0 (length self.now.values) result }
        ensures cost { (d : ℕ) → length self.now.values < 2 ^ d → steps.new ≤ steps.old + (d + 41) }
    {
        let positions = Positions {
            values,
            ranks: &self.ranks,
            order: &self.order,
        };
        last(positions, sought, self.starts, steps)
    }

    /// How many positions up to that one, itself among them, have its value.
    fn count_up_to(&self, position: u32) -> u32
        requires there { position < length self.now.values }
        requires few { length self.now.values ≤ 4294967295 }
        ensures { result ≡ occurrences (value_in self.now.values position) (take position self.now.values) + 1 }
    {
        self.ranks[position as usize] + 1
    }

    /// How many positions below that one hold the value. It looks at one place of the order at a time, and counts each look as
    /// one step: at most d + 41 for every d with fewer than 2^d values.
    pub(crate) fn count_below<L: Ledger>(
        &self,
        values: &[Scalar],
        value: Scalar,
        position: u32,
        steps: &mut Steps<L>,
    ) -> u32
        requires values { values.now ≡ self.now.values }
        requires few { length self.now.values ≤ 4294967295 }
        ensures count { result ≡ occurrences value (take position self.now.values) }
        ensures cost { (d : ℕ) → length self.now.values < 2 ^ d → steps.new ≤ steps.old + (d + 41) }
    {
        let sought = Sought {
            value,
            limit: position,
            others: false,
        };
        match self.last(values, sought, steps) {
            Some(found) => self.count_up_to(found),
            None => 0,
        }
    }

    /// The position with another value, below which so many have another value. It looks as `count_below` does, and counts
    /// as many steps.
    pub(crate) fn other_at<L: Ledger>(
        &self,
        values: &[Scalar],
        value: Scalar,
        below: u32,
        steps: &mut Steps<L>,
    ) -> u32
        requires values { values.now ≡ self.now.values }
        requires few { length self.now.values ≤ 4294967295 }
        requires there { below + occurrences value self.now.values < length self.now.values }
        ensures other { IsOther value self.now.values below result }
        ensures cost { (d : ℕ) → length self.now.values < 2 ^ d → steps.new ≤ steps.old + (d + 41) }
    {
        let sought = Sought {
            value,
            limit: below + 1,
            others: true,
        };
        match self.last(values, sought, steps) {
            Some(found) => below + self.count_up_to(found),
            None => below,
        }
    }

    /// How many positions hold the value. The counter is one of its own.
    fn count_of<L: Ledger>(&self, values: &[Scalar], value: Scalar, blank: Blank) -> u32
        requires name { blank.name ≡ L.name }
        requires parts { blank.parts ≡ L.parts }
        requires one { L.parts ≡ 1 }
        requires values { values.now ≡ self.now.values }
        requires few { length self.now.values ≤ 4294967295 }
        ensures { result ≡ occurrences value self.now.values }
    {
        let mut steps = Steps::<L>::new(blank);
        self.count_below(values, value, values.len() as u32, &mut steps)
    }

    /// Adds the value of the next position, into room that is there. The list ends with it.
    pub(crate) fn add(&mut self, values: &[Scalar], value: Scalar)
        requires room { 0 < self.old.spare }
        requires values { values.now ≡ self.old.values ++ value ∷ [] }
        requires few { length self.old.values < 4294967295 }
        ensures values { self.new.values ≡ self.old.values ++ value ∷ [] }
        ensures spare { self.old.spare ≤ self.new.spare + 1 }
    {
        let position = self.order.len();
        let rank = self.count_of::<Brand>(&values[..position], value, Blank::new(1));
        self.ranks.push_reserved(rank);
        self.order.push_reserved(position as u32);
        self.starts = settle(values, &mut self.order, &mut self.merged, self.starts);
        self.values = self.values.and(&value);
    }
}

/// The positions with these values, with room for that many more.
pub(crate) fn grouped(alloc: Global, values: &[Scalar], count: usize) -> Result<Groups, AllocError>
    requires { length values.now < 4294967295 }
    ensures values { IfOk result (λ groups. groups.values ≡ values.now) }
    ensures room { IfOk result (λ groups. count ≤ groups.spare) }
{
    let mut groups = Groups::new(alloc);
    groups.reserve(values.len())?;
    for position in 0..values.len() {
        groups.add(&values[..position + 1], values[position]);
    }
    groups.reserve(count)?;
    Ok(groups)
}
