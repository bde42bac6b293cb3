//! A plane that keeps its cells as a list in order.
ghost use Rattle.std.specs.Prelude.{◌≡◌, All, IfOk};
ghost use Rattle.life_model.specs.Generation.{from_list};
ghost use Rattle.life_cells.specs.Limits.{IsWithin};

use crate::evolve::next_cells;
use crate::moved::may_have_moved;
use crate::plane::Plane;
use crate::row::row_of;
use life_cells::{CellList, Rule};
use std::alloc::{AllocError, Global};
use std::marker::Model;

/// The live cells in order, and the number of steps that they have made. A step takes time in proportion to the
/// number of live cells times its logarithm.
#[derive(Drop)]
pub struct ListPlane {
    items: Vec<(i32, i32)>,
    age: u32,
}

impl Model for ListPlane {
    ghost use Rattle.std.specs.Prelude.{ℕ, ◌≤◌, T, All};
    ghost use Rattle.life_model.specs.Generation.{Generation, from_list, is_rising};
    ghost use Rattle.life_cells.specs.Limits.{IsWithin, age_limit};
    ghost use Rattle.life_plane.specs.Kept.{coded_plane};

    ghost Value = { Generation × ℕ };

    ghost coded = { coded_plane };

    ghost view = { λ p. (from_list p.items.items, p.age) };

    ghost invariant = { λ p. T (is_rising p.items.items) × All (IsWithin p.age) p.items.items
        × (p.age ≤ age_limit) };
}

impl Plane for ListPlane {
    ghost members = { λ p. p.0 };

    ghost steps_made = { λ p. p.1 };

    fn from_cells(alloc: Global, list: &CellList) -> Result<Self, AllocError> {
        Ok(ListPlane {
            items: list.as_slice().to_vec(alloc)?,
            age: 0,
        })
    }

    fn at_age(alloc: Global, list: &CellList, age: u32) -> Result<Self, AllocError> {
        let items = list.as_slice().to_vec(alloc)?;
        Ok(ListPlane { items, age })
    }

    fn step(&mut self, rule: &Rule) -> Result<(), AllocError> {
        let alloc = *self.items.allocator();
        let items = next_cells(alloc, rule, self.items.as_slice())?;
        self.items = items;
        self.age += 1;
        Ok(())
    }

    fn population(&self) -> u64 {
        self.items.len() as u64
    }

    fn age(&self) -> u32 {
        self.age
    }

    fn row(&self, cell: (i32, i32)) -> u64 {
        row_of(self.items.as_slice(), cell)
    }

    fn may_have_moved(&self, list: &CellList, _reach: u32) -> bool {
        may_have_moved(self.items.as_slice(), list.as_slice())
    }

    fn cells(&self) -> Result<CellList, AllocError> {
        let alloc = *self.items.allocator();
        self.cells_in(CellList::with_capacity(alloc, self.items.len())?)
    }

    fn cells_in(&self, list: CellList) -> Result<CellList, AllocError> {
        let mut items = list.into_vec();
        items.clear();
        items.extend_from_slice(self.items.as_slice())?;
        Ok(CellList::from_ordered(items))
    }

    fn copy(&self) -> Result<Self, AllocError> {
        let alloc = *self.items.allocator();
        Ok(ListPlane {
            items: self.items.as_slice().to_vec(alloc)?,
            age: self.age,
        })
    }
}
