//! Leaves made of lists of cells, and their cells as lists.
ghost use Rattle.std.specs.Prelude.{◌≡◌, ◌≢◌, ℕ, pos, ◌+ℤ◌, ◌<◌, MatchOption, OnOk};
ghost use Rattle.life_model.specs.Cell.{plus};
ghost use Rattle.life_model.specs.Generation.{Generation, from_list};
ghost use Rattle.life_slots.specs.Leaves.{leaf_cell, ShowsLeaf};
ghost use Rattle.life_slots.specs.Lists.{AddsCells, IsInReach};

use crate::leaf::Leaf;
use crate::listing::push_row;
use std::alloc::AllocError;

/// The number of a column among the 32 from column `from` on, if it is one of these. It is used for rows too.
fn column_in(place: i32, from: i32) -> Option<u32>
    ensures { MatchOption result ((x : ℕ) → x < 32 → place ≢ (from +ℤ pos x))
        (λ x. (x < 32) × (place ≡ (from +ℤ pos x))) }
{
    let offset = place as i64 - from as i64;
    if 0 <= offset && offset < 32 {
        Some(offset as u32)
    } else {
        None
    }
}

impl Leaf {
    /// Makes a cell live, if it is in the leaf whose first cell is at a place.
    fn put(&mut self, cell: (i32, i32), place: (i32, i32))
        ensures here { (x y : ℕ) → x < 32 → y < 32 → cell ≡ plus place (pos x, pos y) →
            leaf_cell self.new x y ≡ 1 }
        ensures elsewhere { (x y : ℕ) → x < 32 → y < 32 → cell ≢ plus place (pos x, pos y) →
            leaf_cell self.new x y ≡ leaf_cell self.old x y }
    {
        let Some(x) = column_in(cell.0, place.0) else {
            return;
        };
        let Some(y) = column_in(cell.1, place.1) else {
            return;
        };
        self.set(x, y);
    }

    /// The leaf whose first cell is at a place, with those of the cells that are in it.
    pub fn of(cells: &[(i32, i32)], place: (i32, i32)) -> Leaf
        ensures { ShowsLeaf result (from_list cells.now) place }
    {
        let mut leaf = Leaf::empty();
        for cell in cells {
            leaf.put(*cell, place);
        }
        leaf
    }

    /// Appends the live cells, where the first cell of the leaf is at a place: row by row from north to south, and each row
    /// from west to east.
    pub fn push_cells(
        &self,
        place: (i32, i32),
        cells: &mut Vec<(i32, i32)>,
    ) -> Result<(), AllocError>
        requires { IsInReach place }
        ensures { OnOk result ((G : Generation) → ShowsLeaf self.now G place →
            AddsCells 32 32 place G cells.old.items cells.new.items) }
    {
        for y in 0..32 {
            push_row(cells, place.0, place.1 + y as i32, u64::from(self.rows[y]))?;
        }
        Ok(())
    }
}
