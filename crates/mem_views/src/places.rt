// The place of each cell that was touched.
ghost use Rattle.std.specs.Prelude.{◌≡◌, ℕ, ◌+◌, ◌<◌, ◌≤◌, ◌==◌, ◌&&◌, if◌then◌else◌, length, slice_index, slice_index_or, vec_len, vec_capacity, [], OnOk, OnErr, MatchOption};
ghost use Rattle.mu_values.specs.declared.cells.CellId.{CellId};
ghost use Rattle.mu_values.specs.SameCell.{same_cell};
ghost use Rattle.view_parts.specs.Placing.{Owned};
ghost use Rattle.mem_views.specs.Placing.{number_at, place_in};

use mu_values::CellId;
use std::alloc::{AllocError, Global};
use std::marker::Model;
use view_parts::CellPlaces;

/// A number for each of some offsets, made as they are needed; 0 for the others.
#[derive(Drop)]
pub struct Numbers {
    numbers: Vec<usize>,
}

impl Model for Numbers {
    ghost use Rattle.std.specs.Prelude.{ℕ, List};

    ghost Value = { List ℕ };

    ghost view = { λ a. a.numbers.items };
}

impl Numbers {
    fn new(alloc: Global) -> Self
        ensures { result ≡ [] }
    {
        Numbers {
            numbers: Vec::new(alloc),
        }
    }

    /// The number at an offset, or 0.
    fn of(&self, offset: usize) -> usize
        ensures { result ≡ slice_index self.now offset }
    {
        if offset < self.numbers.len() {
            self.numbers[offset]
        } else {
            0
        }
    }

    /// Makes numbers up to an offset, which are 0.
    fn grow(&mut self, offset: usize) -> Result<(), AllocError>
        requires { offset < 4294967296 }
        ensures same { (i : ℕ) → slice_index self.new i ≡ slice_index self.old i }
        ensures there { OnOk result (offset < length self.new) }
    {
        grow_zeros(&mut self.numbers, offset)
    }

    fn set(&mut self, offset: usize, number: usize)
        requires { offset < length self.old }
        ensures at { (i : ℕ) → slice_index self.new i ≡ (if i == offset then number else slice_index self.old i) }
    {
        self.numbers[offset] = number;
    }
}

/// Adds zeros up to an offset.
fn grow_zeros(numbers: &mut Vec<usize>, offset: usize) -> Result<(), AllocError>
    requires { offset < 4294967296 }
    ensures same { (i : ℕ) → slice_index numbers.new.items i ≡ slice_index numbers.old.items i }
    ensures there { OnOk result (offset < length numbers.new.items) }
{
    while numbers.len() <= offset {
        numbers.push(0)?;
    }
    Ok(())
}

/// The number of a cell, or 0.
fn number_of(objects: &[Numbers], cell: CellId) -> usize
    ensures { result ≡ place_in objects.now cell }
{
    let object = cell.object as usize;
    if object < objects.len() {
        objects[object].of(cell.at as usize)
    } else {
        0
    }
}

/// Makes the numbers of an object up to an offset.
fn grow(
    objects: &mut Vec<Numbers>,
    alloc: Global,
    object: usize,
    offset: usize,
) -> Result<(), AllocError>
    requires object { object < 4294967296 }
    requires offset { offset < 4294967296 }
    ensures same { (o i : ℕ) → number_at objects.new.items o i ≡ number_at objects.old.items o i }
    ensures object { OnOk result (object < length objects.new.items) }
    ensures offset { OnOk result (offset < length (slice_index_or objects.new.items object [])) }
{
    while objects.len() <= object {
        objects.push(Numbers::new(alloc))?;
    }
    grow_at(objects, object, offset)
}

fn grow_at(objects: &mut [Numbers], object: usize, offset: usize) -> Result<(), AllocError>
    requires object { object < length objects.old }
    requires offset { offset < 4294967296 }
    ensures same { (o i : ℕ) → number_at objects.new o i ≡ number_at objects.old o i }
    ensures offset { OnOk result (offset < length (slice_index_or objects.new object [])) }
{
    objects[object].grow(offset)
}

fn set_number(objects: &mut Vec<Numbers>, object: usize, offset: usize, number: usize)
    requires object { object < length objects.old.items }
    requires offset { offset < length (slice_index_or objects.old.items object []) }
    ensures { (o i : ℕ) → number_at objects.new.items o i ≡ (if (o == object) && (i == offset) then number else number_at objects.old.items o i) }
{
    objects[object].set(offset, number);
}

/// The places of the cells that were touched, in a table by object and offset.
#[derive(Drop)]
pub struct Places {
    /// Of each cell one more than its place, and 0 for one that was not touched.
    pub objects: Vec<Numbers>,
    /// The cell at each place.
    pub owners: Vec<CellId>,
    ghost owned: { Owned (place_in objects.items) owners.items },
}

impl Places {
    /// No cell was touched.
    pub fn new(alloc: Global) -> Places
        ensures none { (cell : CellId) → place_in result.objects.items cell ≡ 0 }
        ensures owners { result.owners.items ≡ [] }
    {
        Places {
            objects: Vec::new(alloc),
            owners: Vec::new(alloc),
        }
    }

    /// Makes room for the number of a cell.
    fn make_room(&mut self, alloc: Global, cell: CellId) -> Result<(), AllocError>
        ensures same { (c : CellId) → place_in self.new.objects.items c ≡ place_in self.old.objects.items c }
        ensures owners { self.new.owners.items ≡ self.old.owners.items }
        ensures object { OnOk result (cell.object < length self.new.objects.items) }
        ensures offset { OnOk result (cell.at < length (slice_index_or self.new.objects.items cell.object [])) }
        ensures room { OnOk result (vec_len self.new.owners < vec_capacity self.new.owners) }
    {
        grow(
            &mut self.objects,
            alloc,
            cell.object as usize,
            cell.at as usize,
        )?;
        self.owners.reserve(1)
    }

    /// Gives the next place to a cell that has none.
    fn give_next(&mut self, cell: CellId)
        requires object { cell.object < length self.old.objects.items }
        requires offset { cell.at < length (slice_index_or self.old.objects.items cell.object []) }
        requires room { vec_len self.old.owners < vec_capacity self.old.owners }
        ensures others { (c : CellId) → place_in self.new.objects.items c ≡ (if same_cell c cell then length self.old.owners.items + 1 else place_in self.old.objects.items c) }
        ensures owners { length self.new.owners.items ≡ length self.old.owners.items + 1 }
    {
        let place = self.owners.len();
        self.owners.push_reserved(cell);
        set_number(
            &mut self.objects,
            cell.object as usize,
            cell.at as usize,
            place + 1,
        );
    }
}

impl CellPlaces for Places {
    ghost number = { λ places. place_in places.objects.items };

    ghost owners = { λ places. places.owners.items };

    fn find(&self, cell: CellId) -> Option<usize> {
        let number = number_of(&self.objects, cell);
        if number == 0 {
            return None;
        }
        Some(number - 1)
    }

    fn touch(&mut self, alloc: Global, cell: CellId) -> Result<(), AllocError> {
        self.make_room(alloc, cell)?;
        self.give_next(cell);
        Ok(())
    }

    ghost owned = { λ places. places.owned };
}
