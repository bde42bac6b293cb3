//! Sets that are moved as a whole.
ghost use Rattle.std.specs.Prelude.{◌≡◌, IfOk, IfSome, map, negsuc, pos, ◌+ℤ◌, ◌≤ℤ◌};
ghost use Rattle.life_model.specs.Cell.{plus};
ghost use Rattle.life_model.specs.Symmetry.{translate_of};
ghost use Rattle.life_cells.specs.Limits.{IsPlace, last_place};

use life_cells::{COORDINATE_LIMIT, CellList};
use std::alloc::{AllocError, Global};

/// The number moved, if a list of cells can hold it as a coordinate then.
fn moved_number(number: i32, by: i32) -> Option<i32>
    ensures moved { IfSome result (λ n. n ≡ number +ℤ by) }
    ensures low { IfSome result (λ n. negsuc last_place ≤ℤ n) }
    ensures high { IfSome result (λ n. n ≤ℤ pos last_place) }
{
    let n = number as i64 + by as i64;
    let limit = COORDINATE_LIMIT as i64;
    if -limit <= n && n < limit {
        return Some(n as i32);
    }
    None
}

/// The cell moved, if a list of cells can hold it then.
fn moved_cell(cell: (i32, i32), by: (i32, i32)) -> Option<(i32, i32)>
    ensures moved { IfSome result (λ place. place ≡ plus cell by) }
    ensures placed { IfSome result IsPlace }
{
    let x = moved_number(cell.0, by.0)?;
    let y = moved_number(cell.1, by.1)?;
    Some((x, y))
}

/// The cells moved, if a list of cells can hold them all then.
fn moved_cells(
    alloc: Global,
    cells: &CellList,
    by: (i32, i32),
) -> Result<Option<CellList>, AllocError>
    ensures { IfOk result (λ found. IfSome found (λ set. set ≡ translate_of cells.now by)) }
{
    let places = cells.as_slice();
    let mut items = Vec::new(alloc);
    for cell in places {
        match moved_cell(*cell, by) {
            Some(place) => items.push(place)?,
            None => return Ok(None),
        }
    }
    Ok(Some(CellList::from_ordered(items)))
}

/// The sets, each moved, if lists of cells can hold all their cells then.
pub fn moved_sets(
    alloc: Global,
    sets: &[CellList],
    by: (i32, i32),
) -> Result<Option<Vec<CellList>>, AllocError>
    ensures { IfOk result
        (λ found. IfSome found (λ all. all.items ≡ map (λ P. translate_of P by) sets.now)) }
{
    let mut all = Vec::new(alloc);
    for set in sets {
        match moved_cells(alloc, set, by)? {
            Some(moved) => all.push(moved)?,
            None => return Ok(None),
        }
    }
    Ok(Some(all))
}
