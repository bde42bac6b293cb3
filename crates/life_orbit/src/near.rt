//! Cells that are near each other.
ghost use Rattle.std.specs.Prelude.{◌≡◌, ◌↔◌, ◌^◌, IsTrue, T, pos, neg_ℤ, ◌≤ℤ◌};
ghost use Rattle.life_model.specs.Cell.{plus};
ghost use Rattle.life_model.specs.Generation.{is_rising};
ghost use Rattle.life_orbit.specs.Clear.{AreClear, IsClearOf, IsFree, comes_before};
ghost use Rattle.life_orbit.specs.Reach.{IsReach};

/// True if a cell is in a row before this one, or in this row and before the column.
fn comes_before(cell: (i32, i32), row: i128, column: i128) -> bool
    ensures { result ≡ comes_before row column cell }
{
    if cell.1 as i128 == row {
        return (cell.0 as i128) < column;
    }
    (cell.1 as i128) < row
}

/// True if none of the cells, which are in order, is in a row from the left column to the right one.
fn is_free(cells: &[(i32, i32)], row: i128, left: i128, right: i128) -> bool
    requires { T (is_rising cells.now) }
    ensures { IsTrue result ↔ IsFree row left right cells.now }
{
    let start = cells.partition_point(|cell| comes_before(*cell, row, left));
    if start == cells.len() {
        return true;
    }
    let (x, y) = cells[start];
    if y as i128 != row {
        return true;
    }
    if x as i128 > right {
        return true;
    }
    false
}

/// True if a cell, moved, is near none of the cells, which are in order: those of five rows are looked up.
fn is_clear_of(cell: (i32, i32), by: (i128, i128), others: &[(i32, i32)]) -> bool
    requires reach { IsReach (2 ^ 126) by }
    requires rising { T (is_rising others.now) }
    ensures { IsTrue result ↔ IsClearOf (plus cell by) others.now }
{
    let column = cell.0 as i128 + by.0;
    let row = cell.1 as i128 + by.1;
    for step in 0..5u8 {
        if !is_free(others, row - 2 + step as i128, column - 2, column + 2) {
            return false;
        }
    }
    true
}

/// True if no cell of the first list, moved, is near one of the second. Each is looked up in the second.
fn each_is_clear(cells: &[(i32, i32)], by: (i128, i128), others: &[(i32, i32)]) -> bool
    requires reach { IsReach (2 ^ 126) by }
    requires rising { T (is_rising others.now) }
    ensures { IsTrue result ↔ AreClear cells.now by others.now }
{
    for cell in cells {
        if !is_clear_of(*cell, by, others) {
            return false;
        }
    }
    true
}

/// True if no cell of the first list, moved, is near one of the second. Both are in order, and each cell of the shorter
/// one is looked up in the other.
pub fn are_clear(cells: &[(i32, i32)], by: (i128, i128), others: &[(i32, i32)]) -> bool
    requires reach { IsReach (2 ^ 126) by }
    requires rising { T (is_rising cells.now) }
    requires other_rising { T (is_rising others.now) }
    ensures { IsTrue result ↔ AreClear cells.now by others.now }
{
    if others.len() < cells.len() {
        return each_is_clear(others, (-by.0, -by.1), cells);
    }
    each_is_clear(cells, by, others)
}
