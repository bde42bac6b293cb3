//! The cells of squares as a list.
ghost use Rattle.std.specs.Prelude.{◌≡◌, ◌||◌, OnOk};
ghost use Rattle.std.specs.List.{list_any};
ghost use Rattle.life_model.specs.Cell.{Cell, same_cell};
ghost use Rattle.life_advance.specs.Leaps.Squares.{IsAt, IsKept};
ghost use Rattle.life_advance.specs.Leaps.Stores.{view};
ghost use Rattle.life_advance.specs.Leaps.Cells.{cells_of, rows_cells};
ghost use Rattle.life_advance.specs.Leaps.Sites.{IsSite, corner};

use crate::leaps::site::Site;
use crate::leaps::square::empty_place;
use crate::leaps::store::Store;
use life_slots::{Leaf, push_row};
use std::alloc::AllocError;

/// Appends the live cells of a leaf.
fn push_leaf(cells: &mut Vec<(i32, i32)>, site: &Site, leaf: &Leaf) -> Result<(), AllocError>
    requires site { IsSite site.now }
    requires level { site.now.level ≡ 0 }
    ensures { OnOk result ((q : Cell) → list_any (same_cell q) cells.new.items ≡
        (list_any (same_cell q) cells.old.items
        || list_any (same_cell q) (rows_cells site.now.left site.now.top leaf.now.rows 32))) }
{
    for y in 0..32 {
        push_row(
            cells,
            site.left,
            site.top + y as i32,
            u64::from(leaf.rows[y]),
        )?;
    }
    Ok(())
}

impl Store {
    /// Appends the live cells of a square at a site.
    pub fn push_cells(
        &self,
        cells: &mut Vec<(i32, i32)>,
        site: &Site,
        place: u32,
    ) -> Result<(), AllocError>
        requires kept { IsKept (view self.now) }
        requires site { IsSite site.now }
        requires at { IsAt (view self.now) site.now.level place }
        ensures { OnOk result ((q : Cell) → list_any (same_cell q) cells.new.items ≡
            (list_any (same_cell q) cells.old.items
            || list_any (same_cell q) (cells_of (view self.now) site.now.level place (corner site.now)))) }
    {
        if place == empty_place(site.level) {
            return Ok(());
        }
        if site.level == 0 {
            push_leaf(cells, site, &self.leaves[place as usize])?;
            return Ok(());
        }
        let quarters = self.quarters(place);
        let sites = site.quarters();
        self.push_cells(cells, &sites.north_west, quarters.north_west)?;
        self.push_cells(cells, &sites.north_east, quarters.north_east)?;
        self.push_cells(cells, &sites.south_west, quarters.south_west)?;
        self.push_cells(cells, &sites.south_east, quarters.south_east)?;
        Ok(())
    }
}
