//! Moving sets as a whole, and not far.
ghost use Rattle.std.specs.Prelude.{◌≡◌, All, IfOk};
ghost use Rattle.life_model.specs.Cell.{plus};
ghost use Rattle.life_model.specs.Generation as generations;
ghost use Rattle.life_model.specs.Symmetry.{translate_of};
ghost use Rattle.life_cells.specs.Limits.{IsPlace, IsWithin};
ghost use Rattle.life_growing.specs.Settled.Placing.{IsNearby, placed_age_limit};

use life_cells::CellList;
use std::alloc::{AllocError, Global};

/// The cell moved.
fn moved_cell(cell: (i32, i32), by: (i32, i32)) -> (i32, i32)
    requires within { IsWithin placed_age_limit cell }
    requires by { IsNearby by }
    ensures moved { result ≡ plus cell by }
    ensures placed { IsPlace result }
{
    (cell.0 + by.0, cell.1 + by.1)
}

/// The cells moved.
pub fn moved(alloc: Global, cells: &CellList, by: (i32, i32)) -> Result<CellList, AllocError>
    requires within { All (IsWithin placed_age_limit) (generations.cells cells.now) }
    requires by { IsNearby by }
    ensures { IfOk result (λ set. set ≡ translate_of cells.now by) }
{
    let places = cells.as_slice();
    let mut items = Vec::with_capacity(alloc, places.len())?;
    for cell in places {
        items.push(moved_cell(*cell, by))?;
    }
    Ok(CellList::from_ordered(items))
}
