// The places of the cells that were touched.
ghost use Rattle.std.specs.Prelude.{◌≡◌, ℕ, ◌+◌, if◌then◌else◌, List, length, OnOk, OnErr, MatchOption};
ghost use Rattle.mu_values.specs.declared.cells.CellId.{CellId};
ghost use Rattle.mu_values.specs.SameCell.{same_cell};
ghost use Rattle.view_parts.specs.Placing.{Owned};

use mu_values::CellId;
use std::alloc::{AllocError, Global};

/// The places of the cells that were touched: 0 and so on, in the order in which they were touched.
pub trait CellPlaces {
    /// One more than the place of a cell, or 0 where it was not touched.
    ghost number: { Self → CellId → ℕ };

    /// The cell at each place.
    ghost owners: { Self → List CellId };

    /// The place of a cell, if it was touched.
    fn find(&self, cell: CellId) -> Option<usize>
        ensures { MatchOption result (number self.now cell ≡ 0) (λ place. number self.now cell ≡ place + 1) };

    /// Gives the next place to a cell that has none. A refusal leaves all places as they were.
    fn touch(&mut self, alloc: Global, cell: CellId) -> Result<(), AllocError>
        requires { number self.old cell ≡ 0 }
        ensures numbers { OnOk result ((c : CellId) → number self.new c ≡ (if same_cell c cell then length (owners self.old) + 1 else number self.old c)) }
        ensures owners { OnOk result (length (owners self.new) ≡ length (owners self.old) + 1) }
        ensures same { OnErr result ((c : CellId) → number self.new c ≡ number self.old c) }
        ensures same_owners { OnErr result (owners self.new ≡ owners self.old) };

    /// No two cells have one place.
    ghost owned: { (places : Self) → Owned (number places) (owners places) };
}
