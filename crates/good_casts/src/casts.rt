// Casts that were good, found by what was cast and the class.
ghost use Rattle.std.specs.Prelude.{◌≡◌, ◌<◌, List, Some, OnOk, length, slice_get, true};
ghost use Rattle.check_tables.specs.declared.tables.Tables.{Tables};
ghost use Rattle.typed_heap.specs.Objects.{HeapObject};
ghost use Rattle.object_laws.specs.Leaves.{IsGoodCast};
ghost use Rattle.good_casts.specs.Good.{AreGood};

use mu_values::Scalar;
use std::alloc::{AllocError, Global};
use std::marker::Model;

/// How many casts are kept.
const ROWS: u32 = 64;

/// What was cast, and the class that it was cast to.
#[derive(Clone, Copy, PartialEq, Eq)]
pub(crate) struct GoodCast {
    pub class: u32,
    pub scalar: Scalar,
}

/// Casts that were good. 64 are kept at most: a later one takes the place of one in its row. Contracts see the rows.
#[derive(Drop)]
pub struct GoodCasts {
    rows: Vec<Option<GoodCast>>,
}

impl Model for GoodCasts {
    ghost use Rattle.std.specs.Prelude.{List, Option};
    ghost use Rattle.good_casts.specs.declared.casts.GoodCast.{GoodCast};

    ghost Value = { List (Option GoodCast) };

    ghost view = { λ c. c.rows.items };
}

/// The row of a cast.
fn row_of(cast: &GoodCast) -> usize {
    let mixed = match &cast.scalar {
        Scalar::Object(object) => *object,
        Scalar::Place { object, at } => object.wrapping_add(at.wrapping_mul(7)),
        _ => 0,
    };
    (mixed.wrapping_add(cast.class.wrapping_mul(31)) % ROWS) as usize
}

/// What is kept in a row.
fn kept(rows: &[Option<GoodCast>], row: usize) -> &Option<GoodCast>
    requires { row < length rows.now }
    ensures { slice_get rows.now row ≡ Some result.now }
{
    &rows[row]
}

/// Whether two casts are one.
fn is_same(a: &GoodCast, b: &GoodCast) -> bool
    ensures { result ≡ true → a.now ≡ b.now }
{
    *a == *b
}

/// Adds rows without a cast, until there is this one.
#[tactic(auto, using(crate::specs::Good::rows))]
fn reach(rows: &mut Vec<Option<GoodCast>>, row: usize) -> Result<(), AllocError>
    ensures rows { (p : Tables) (os : List HeapObject) → AreGood p os rows.old.items → AreGood p os rows.new.items }
    ensures there { OnOk result (row < length rows.new.items) }
{
    while rows.len() <= row {
        rows.push(None)?;
    }
    Ok(())
}

impl GoodCasts {
    /// No casts. It takes no memory yet.
    #[tactic(auto, using(crate::specs::Good::rows))]
    pub fn new(alloc: Global) -> GoodCasts
        ensures { (p : Tables) (os : List HeapObject) → AreGood p os result }
    {
        GoodCasts {
            rows: Vec::new(alloc),
        }
    }

    /// Whether this cast is kept.
    #[tactic(auto, using(crate::specs::Good::found))]
    pub fn has(&self, class: u32, scalar: Scalar) -> bool
        ensures { result ≡ true → (p : Tables) (os : List HeapObject) → AreGood p os self.now → IsGoodCast p os class scalar }
    {
        let cast = GoodCast { class, scalar };
        let row = row_of(&cast);
        if row >= self.rows.len() {
            return false;
        }
        match kept(&self.rows, row) {
            Some(kept) => is_same(kept, &cast),
            None => false,
        }
    }

    /// Keeps a cast in its row, where memory is found.
    #[tactic(auto, using(crate::specs::Good::rows))]
    fn put(&mut self, cast: GoodCast) -> Result<(), AllocError>
        ensures { (p : Tables) (os : List HeapObject) → AreGood p os self.old → IsGoodCast p os cast.class cast.scalar → AreGood p os self.new }
    {
        let row = row_of(&cast);
        reach(&mut self.rows, row)?;
        self.rows[row] = Some(cast);
        Ok(())
    }

    /// Keeps a cast that is good. Where no memory is found it is not kept.
    pub fn keep(&mut self, class: u32, scalar: Scalar)
        ensures { (p : Tables) (os : List HeapObject) → AreGood p os self.old → IsGoodCast p os class scalar → AreGood p os self.new }
    {
        let _kept = self.put(GoodCast { class, scalar }).is_ok();
    }
}
