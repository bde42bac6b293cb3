//! Tests for cells that are near each other.
ghost use Rattle.std.specs.Prelude.{◌≡◌};
ghost use Rattle.std.specs.List.{list_any};
ghost use Rattle.life_classes.specs.Nearness.{are_within, reaches};

use crate::rows::rows;
use life_cells::CellList;

/// True if two cells are at most `reach` from each other in both directions.
fn are_within(reach: u32, cell: (i32, i32), other: (i32, i32)) -> bool
    ensures { result ≡ are_within reach cell other }
{
    cell.0.abs_diff(other.0) <= reach && cell.1.abs_diff(other.1) <= reach
}

/// True if one of the cells is at most `reach` from this one in both directions.
fn is_any_within(reach: u32, cells: &[(i32, i32)], cell: (i32, i32)) -> bool
    ensures { result ≡ list_any (are_within reach cell) cells.now }
{
    cells.iter().any(|other| are_within(reach, cell, *other))
}

/// True if a cell of a set is at most `reach` from this one in both directions.
pub fn reaches(reach: u32, set: &CellList, cell: (i32, i32)) -> bool
    ensures { result ≡ reaches reach set.now cell }
{
    let row = i64::from(cell.1);
    let reach_rows = i64::from(reach);
    is_any_within(
        reach,
        rows(set.as_slice(), row - reach_rows, row + reach_rows),
        cell,
    )
}

/// True if one of the cells is at most `reach` from a cell of a set in both directions.
pub fn reaches_any(reach: u32, set: &CellList, cells: &[(i32, i32)]) -> bool
    ensures { result ≡ list_any (reaches reach set.now) cells.now }
{
    cells.iter().any(|cell| reaches(reach, set, *cell))
}
