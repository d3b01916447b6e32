// The places of the cells of a log.
ghost use Rattle.std.specs.Prelude.{◌≡◌, ℕ, ◌*◌, ◌+◌, ◌<◌, [], if◌then◌else◌, length, vec_len, vec_capacity, OnErr, MatchOption};
ghost use Rattle.mu_values.specs.declared.cells.CellId.{CellId};
ghost use Rattle.view_parts.specs.Placing.{Owned};
ghost use Rattle.log_judge.specs.CellKeys.{cell_key, number_in};

use mu_values::CellId;
use std::alloc::{AllocError, Global};
use std::collections::BTreeMap;
use view_parts::CellPlaces;

/// One number for both numbers of a cell.
pub fn key_of(cell: CellId) -> u64
    ensures key { result ≡ cell_key cell }
    ensures small { cell.at < 4294967296 }
{
    cell.object as u64 * 4294967296 + cell.at as u64
}

/// The places of the cells that were touched, in the order of their keys. A log may name whatever cells it likes: a table by their numbers
/// would take memory for all those below, and a hash could be the same for all of them.
#[derive(Drop)]
pub struct CellMap {
    /// The place of each cell, by its key.
    pub places: BTreeMap<u64, usize>,
    /// The cell at each place.
    pub owners: Vec<CellId>,
    ghost owned: { Owned (number_in places) owners.items },
}

impl CellMap {
    /// No cell was touched.
    pub fn new(alloc: Global) -> CellMap
        ensures none { (cell : CellId) → number_in result.places cell ≡ 0 }
        ensures owners { result.owners.items ≡ [] }
    {
        CellMap {
            places: BTreeMap::new(alloc),
            owners: Vec::new(alloc),
        }
    }
}

impl CellPlaces for CellMap {
    ghost number = { λ map. number_in map.places };

    ghost owners = { λ map. map.owners.items };

    fn find(&self, cell: CellId) -> Option<usize> {
        match self.places.get(&key_of(cell)) {
            Some(place) => Some(*place),
            None => None,
        }
    }

    fn touch(&mut self, _alloc: Global, cell: CellId) -> Result<(), AllocError> {
        let place = self.owners.len();
        self.owners.reserve(1)?;
        self.places.insert(key_of(cell), place)?;
        self.owners.push_reserved(cell);
        Ok(())
    }

    ghost owned = { λ map. map.owned };
}
