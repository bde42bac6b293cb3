//! The plane of a store.
ghost use Rattle.std.specs.Prelude.{◌≡◌, ◌<◌, IfOk};
ghost use Rattle.life_tile.specs.TileStores.{IsKept, members_of};

use crate::covering::row_from;
use crate::sameness;
use crate::standing::may_stand;
use crate::tile_store::TileStore;
use life_cells::{CellList, Rule, put_in_order};
use life_plane::{Plane, move_between};
use life_slots::is_void;
use std::alloc::{AllocError, Global};
use std::marker::Model;

/// A plane that keeps its live cells in tiles that stay where they are. A step computes only the bands of eight rows
/// that may change: those with a cell that changed between the last two generations, or next to one. For the other
/// tiles it only checks that they have no such band.
#[derive(Drop)]
pub struct TilePlane {
    store: TileStore,
    /// The number of slots at which the store is rebuilt without the slots whose tile has no live cell.
    limit: usize,
}

impl Model for TilePlane {
    ghost use Rattle.std.specs.Prelude.{ℕ};
    ghost use Rattle.std.specs.Coded.{coded×, coded_ℕ};
    ghost use Rattle.life_model.specs.Coded.{coded_generation};
    ghost use Rattle.life_model.specs.Generation.{Generation};
    ghost use Rattle.life_tile.specs.TileStores.{IsKept, members_of};

    ghost Value = { Generation × ℕ };

    ghost coded = { coded× coded_generation coded_ℕ };

    ghost view = { λ p. (members_of p.store, p.store.age) };

    ghost invariant = { λ p. IsKept p.store };
}

/// The number of cells for which a list has room at first.
const FEW: usize = 32;

/// The number of slots at which a store is to be rebuilt. The store now has room for what its tiles may grow into.
fn limit_of(store: &TileStore) -> usize {
    store.slots.len().saturating_mul(2).saturating_add(32)
}

/// True where at most half of a store's slots have a live cell, so that rebuilding it is worth while.
fn is_sparse(store: &TileStore) -> bool {
    let live = store.current.iter().filter(|tile| !is_void(tile)).count();
    live <= store.slots.len() / 2
}

impl TilePlane {
    /// The number of tiles that it keeps, which determines its memory. It is at least one: the empty tile is used for
    /// all tiles that it doesn't keep.
    pub fn tiles(&self) -> usize
        ensures { 0 < result }
    {
        self.store.slots.len()
    }

    /// The number of bands of eight rows that the next step computes, which determines its time. No answer depends on
    /// it.
    pub fn active_bands(&self) -> u64 {
        let mut count = 0u64;
        for bands in &self.store.active {
            count = count.saturating_add(u64::from(bands.bits.count_ones()));
        }
        count
    }

    /// Rebuilds the store if it has many slots, most of them without a live cell.
    fn compact(&mut self) -> Result<(), AllocError>
        ensures { self.new ≡ self.old }
    {
        if self.store.slots.len() <= self.limit {
            return Ok(());
        }
        if is_sparse(&self.store) {
            self.store = self.store.compacted()?;
        } else {
            self.limit = limit_of(&self.store);
        }
        Ok(())
    }
}

impl Plane for TilePlane {
    ghost members = { λ p. p.0 };

    ghost steps_made = { λ p. p.1 };

    fn from_cells(alloc: Global, list: &CellList) -> Result<Self, AllocError> {
        let store = TileStore::of(alloc, list.as_slice(), 0)?;
        let limit = limit_of(&store);
        Ok(TilePlane { store, limit })
    }

    fn at_age(alloc: Global, list: &CellList, age: u32) -> Result<Self, AllocError> {
        let store = TileStore::of(alloc, list.as_slice(), age)?;
        let limit = limit_of(&store);
        Ok(TilePlane { store, limit })
    }

    fn step(&mut self, rule: &Rule) -> Result<(), AllocError> {
        self.compact()?;
        let is_new = self.store.lacks_previous;
        self.store.use_rule(rule);
        self.store.grow()?;
        if is_new {
            // (a store that was just built had no slots yet for the tiles around the live ones)
            self.limit = limit_of(&self.store);
        }
        self.store.advance();
        Ok(())
    }

    fn population(&self) -> u64 {
        self.store.population()
    }

    fn age(&self) -> u32 {
        self.store.age
    }

    fn row(&self, cell: (i32, i32)) -> u64 {
        row_from(&self.store, cell)
    }

    fn may_have_moved(&self, list: &CellList, reach: u32) -> bool {
        may_stand(&self.store, list.as_slice(), reach)
    }

    fn cells(&self) -> Result<CellList, AllocError> {
        let alloc = *self.store.slots.allocator();
        self.cells_in(CellList::with_capacity(alloc, FEW)?)
    }

    fn cells_in(&self, list: CellList) -> Result<CellList, AllocError> {
        let mut cells = self.store.cells_in(list.into_vec())?;
        put_in_order(&mut cells);
        Ok(CellList::from_ordered(cells))
    }

    fn span(&self) -> Result<(i32, i32), AllocError> {
        Ok(match self.store.ends() {
            Some(ends) => move_between(ends.first, ends.last),
            None => (0, 0),
        })
    }

    fn offset_from(&self, list: &CellList) -> Result<Option<(i32, i32)>, AllocError> {
        Ok(sameness::offset_from(&self.store, list.as_slice()))
    }

    fn offset_from_plane(&self, other: &Self) -> Result<Option<(i32, i32)>, AllocError> {
        Ok(sameness::offset_from_store(&self.store, &other.store))
    }

    fn copy(&self) -> Result<Self, AllocError> {
        let store = self.store.compacted()?;
        let limit = limit_of(&store);
        Ok(TilePlane { store, limit })
    }
}
