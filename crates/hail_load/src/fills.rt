//! What the cells of objects begin with, kept as commands fill them. The heap is given it at the end, each cell once.
ghost use Rattle.std.specs.Prelude.{◌≡◌, ℕ, ◌+◌, ◌-◌, ◌^◌, ◌<◌, ◌≤◌, List, [], ◌∷◌, ◌++◌, Some, length, take, replicate, slice_get, slice_set, slice_index_or, IfOk, IfSome, IsTrue, OnOk, OnErr};
ghost use Rattle.mu_values.specs.declared.scalars.Scalar.{Scalar};
ghost use Rattle.typed_heap.specs.Objects.{HeapObject, with_filled};
ghost use Rattle.typed_heap.specs.Heap.{cells_of};
ghost use Rattle.hail_load.specs.Answering.{AreWhole};
ghost use Rattle.hail_load.specs.Fills.{made, fills_of, row_of, uncovered, uncovered_in, AreSteps, Walked, Given, Fits, Lags};
ghost use Rattle.hail_load.specs.Gathered.{scalars_in, gathered};

use crate::gathered::Run;
use crate::parts::Spot;
use mu_values::Scalar;
use std::alloc::{AllocError, Global};
use std::marker::Model;
use typed_heap::{CellId, Heap};

/// A run, and the first of the cells that begin with its scalars.
#[derive(Clone, Copy)]
pub(crate) struct Fill<'a> {
    pub(crate) object: u32,
    pub(crate) at: u32,
    pub(crate) scalars: Run<'a>,
}

/// Which cells of an object newer fills cover, once fills are settled: of each 0 if none does, or else how many cells from it on are
/// known to be covered. Contracts see these numbers. An object that is not filled has an empty row.
#[derive(Drop)]
pub(crate) struct Row {
    covered: Vec<u32>,
}

impl Model for Row {
    ghost use Rattle.std.specs.Prelude.{ℕ, List};

    ghost Value = { List ℕ };

    ghost view = { λ r. r.covered.items };
}

impl Row {
    /// No cells. It takes no memory.
    fn empty(alloc: Global) -> Row
        ensures { result ≡ [] }
    {
        Row {
            covered: Vec::new(alloc),
        }
    }

    /// So many cells, none of which is covered.
    fn uncovered(alloc: Global, cells: u32) -> Result<Row, AllocError>
        ensures { IfOk result (λ r. r ≡ replicate cells 0) }
    {
        let covered = vec![in alloc; 0; cells as usize]?;
        Ok(Row { covered })
    }

    fn len(&self) -> usize
        ensures { result ≡ length self.now }
    {
        self.covered.len()
    }

    /// Gives the heap the scalars of a fill for those of its cells that are not covered, and covers all of them.
    fn settle(&mut self, heap: &mut Heap, fill: &Fill)
        requires whole { AreWhole heap.old.objects }
        requires fits { Fits heap.old.objects fill.now }
        requires row { fill.now.at + length (scalars_in fill.now.scalars) ≤ length self.old }
        requires room { uncovered self.old ≤ heap.old.spare }
        requires steps { AreSteps self.old }
        ensures row { Walked self.old self.new fill.now.at (fill.now.at + length (scalars_in fill.now.scalars)) (fill.now.at + length (scalars_in fill.now.scalars)) }
        ensures given { Given heap.old.objects heap.new.objects self.old fill.now.object fill.now.at (fill.now.at + length (scalars_in fill.now.scalars)) (scalars_in fill.now.scalars) }
        ensures left { heap.new.left ≡ heap.old.left }
        ensures room { heap.old.spare + uncovered self.new ≤ heap.new.spare + uncovered self.old }
    {
        settle_cells(heap, fill, &mut self.covered);
    }
}

/// Gives a cell its scalar.
fn settle_cell(heap: &mut Heap, fill: &Fill, n: usize)
    requires fits { Fits heap.old.objects fill.now }
    requires n { n < length (scalars_in fill.now.scalars) }
    requires room { 1 ≤ heap.old.spare }
    ensures objects { IfSome (slice_get (scalars_in fill.now.scalars) n) (λ s. heap.new.objects ≡ with_filled heap.old.objects fill.now.object (fill.now.at + n) (s ∷ []) (slice_get heap.old.objects fill.now.object)) }
    ensures left { heap.new.left ≡ heap.old.left }
    ensures room { heap.old.spare ≤ heap.new.spare + 1 }
{
    let cell = CellId {
        object: fill.object,
        at: fill.at + n as u32,
    };
    heap.set_all(cell, &[fill.scalars.at(n)]);
}

/// Gives the heap the scalars of a fill for those of its cells that are not covered, and covers all of them. What is covered is passed in
/// steps, and each step that is taken is made as long as this fill shows it to be.
fn settle_cells(heap: &mut Heap, fill: &Fill, row: &mut [u32])
    requires whole { AreWhole heap.old.objects }
    requires fits { Fits heap.old.objects fill.now }
    requires row { fill.now.at + length (scalars_in fill.now.scalars) ≤ length row.old }
    requires room { uncovered row.old ≤ heap.old.spare }
    requires steps { AreSteps row.old }
    ensures row { Walked row.old row.new fill.now.at (fill.now.at + length (scalars_in fill.now.scalars)) (fill.now.at + length (scalars_in fill.now.scalars)) }
    ensures given { Given heap.old.objects heap.new.objects row.old fill.now.object fill.now.at (fill.now.at + length (scalars_in fill.now.scalars)) (scalars_in fill.now.scalars) }
    ensures left { heap.new.left ≡ heap.old.left }
    ensures room { heap.old.spare + uncovered row.new ≤ heap.new.spare + uncovered row.old }
{
    let first = fill.at as usize;
    let many = fill.scalars.len();
    let mut n = 0;
    'each: while n < many {
        let known = row[first + n];
        let left = (many - n) as u32;
        row[first + n] = known.max(left);
        if known == 0 {
            settle_cell(heap, fill, n);
            n += 1;
        } else {
            n += known.min(left) as usize;
        }
    }
}

/// How many cells an object has. It takes 32 bits to tell that, and to tell how many objects there are.
fn cells_in(heap: &Heap, object: u32) -> u32
    requires { object < length heap.now.objects }
    ensures is { result ≡ cells_of (slice_get heap.now.objects object) }
    ensures narrow { cells_of (slice_get heap.now.objects object) < 2 ^ 32 }
    ensures few { length heap.now.objects < 2 ^ 32 }
{
    let _objects = heap.objects();
    heap.size(object)
}

/// Adds empty rows, up to that of an object.
fn reach(rows: &mut Vec<Row>, alloc: Global, object: usize) -> Result<(), AllocError>
    ensures same { (n : ℕ) → row_of rows.new.items n ≡ row_of rows.old.items n }
    ensures more { length rows.old.items ≤ length rows.new.items }
    ensures cells { uncovered_in rows.new.items ≡ uncovered_in rows.old.items }
    ensures few { (most : ℕ) → length rows.old.items ≤ most → object < most → length rows.new.items ≤ most }
    ensures there { OnOk result (object < length rows.new.items) }
{
    'each: while rows.len() <= object {
        rows.push(Row::empty(alloc))?;
    }
    Ok(())
}

/// Adds a fill for each run, one behind the other. Where no memory is found some may be added.
fn push_fills<'a>(
    fills: &mut Vec<Fill<'a>>,
    object: u32,
    at: u32,
    runs: &[Run<'a>],
) -> Result<(), AllocError>
    requires { at + length (gathered runs.now) < 2 ^ 32 }
    ensures ok { OnOk result (fills.new.items ≡ fills.old.items ++ fills_of object at runs.now) }
    ensures kept { take (length fills.old.items) fills.new.items ≡ fills.old.items }
{
    let mut at = at;
    for run in runs {
        fills.push(Fill {
            object,
            at,
            scalars: *run,
        })?;
        at += run.len() as u32;
    }
    Ok(())
}

/// The fills of the commands so far, the newest last; a row for each object up to the last that is filled; and how many cells have rows.
#[derive(Drop)]
pub(crate) struct Fills<'a> {
    alloc: Global,
    pub(crate) fills: Vec<Fill<'a>>,
    pub(crate) rows: Vec<Row>,
    pub(crate) cells: usize,
}

impl<'a> Fills<'a> {
    pub(crate) fn new(alloc: Global) -> Fills<'a>
        ensures fills { result.fills.items ≡ [] }
        ensures rows { result.rows.items ≡ [] }
        ensures cells { result.cells ≡ 0 }
    {
        Fills {
            alloc,
            fills: Vec::new(alloc),
            rows: Vec::new(alloc),
            cells: 0,
        }
    }

    /// Makes a row for an object that has none, and room in the heap for a scalar for each cell that has a row.
    fn open(&mut self, heap: &mut Heap, object: u32) -> Result<(), AllocError>
        requires lags { Lags heap.old self.old }
        requires object { object < length heap.old.objects }
        ensures lags { Lags heap.new self.new }
        ensures objects { heap.new.objects ≡ heap.old.objects }
        ensures left { heap.new.left ≡ heap.old.left }
        ensures fills { self.new.fills.items ≡ self.old.fills.items }
        ensures there { OnOk result (object < length self.new.rows.items) }
        ensures row { OnOk result (length (row_of self.new.rows.items object) ≡ cells_of (slice_get heap.old.objects object)) }
        ensures narrow { cells_of (slice_get heap.old.objects object) < 2 ^ 32 }
    {
        let size = cells_in(heap, object);
        reach(&mut self.rows, self.alloc, object as usize)?;
        if self.rows[object as usize].len() > 0 {
            return Ok(());
        }
        let cells = self.cells + size as usize;
        heap.reserve(cells)?;
        self.rows[object as usize] = Row::uncovered(self.alloc, size)?;
        self.cells = cells;
        Ok(())
    }

    /// Adds a fill for each run, one behind the other from a cell on. Where no memory is found none is added.
    fn push_all(&mut self, object: u32, at: u32, runs: &[Run<'a>]) -> Result<(), AllocError>
        requires { at + length (gathered runs.now) < 2 ^ 32 }
        ensures fills { OnOk result (self.new.fills.items ≡ self.old.fills.items ++ fills_of object at runs.now) }
        ensures err { OnErr result (self.new.fills.items ≡ self.old.fills.items) }
        ensures rows { self.new.rows.items ≡ self.old.rows.items }
        ensures cells { self.new.cells ≡ self.old.cells }
    {
        let many = self.fills.len();
        let pushed = push_fills(&mut self.fills, object, at, runs);
        if pushed.is_err() {
            self.fills.truncate(many);
        }
        pushed
    }

    /// Adds fills by which the cells from a spot on begin with the scalars of some runs. It takes constant time for each run. Where no
    /// memory is found none is added.
    pub(crate) fn add(
        &mut self,
        heap: &mut Heap,
        spot: Spot,
        runs: &[Run<'a>],
    ) -> Result<(), AllocError>
        requires lags { Lags heap.old self.old }
        requires room { spot.at + length (gathered runs.now) ≤ cells_of (slice_get heap.old.objects spot.object) }
        ensures lags { Lags heap.new self.new }
        ensures filled { OnOk result (made heap.new.objects self.new.fills.items ≡ with_filled (made heap.old.objects self.old.fills.items) spot.object spot.at (gathered runs.now) (slice_get (made heap.old.objects self.old.fills.items) spot.object)) }
        ensures objects { heap.new.objects ≡ heap.old.objects }
        ensures left { heap.new.left ≡ heap.old.left }
        ensures err { OnErr result (made heap.new.objects self.new.fills.items ≡ made heap.old.objects self.old.fills.items) }
    {
        let Spot { object, at, .. } = spot;
        if object >= heap.objects() {
            return Ok(());
        }
        self.open(heap, object)?;
        self.push_all(object, at, runs)?;
        Ok(())
    }

    /// Gives the heap the scalars of all fills, each cell that of the newest. It takes no memory, and about constant time for each fill
    /// and for each cell that is filled, however often.
    pub(crate) fn settle(self, heap: &mut Heap)
        requires { Lags heap.old self }
        ensures objects { heap.new.objects ≡ made heap.old.objects self.entry.fills.items }
        ensures left { heap.new.left ≡ heap.old.left }
    {
        let mut fills = self.fills;
        let mut rows = self.rows;
        'each: while let Some(fill) = fills.pop() {
            rows[fill.object as usize].settle(heap, &fill);
        }
    }
}
