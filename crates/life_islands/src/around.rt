//! Cells around a cell.
ghost use Rattle.std.specs.Prelude.{◌≡◌, ◌<◌, get_or};
ghost use Rattle.life_model.specs.Cell.{around, origin};
ghost use Rattle.life_cells.specs.Limits.{IsPlace};
ghost use Rattle.life_islands.specs.Reach.{IsInReach};

/// One of the eight cells around a cell, by its number.
pub fn neighbour(cell: (i32, i32), number: usize) -> (i32, i32)
    requires { IsInReach cell }
    ensures value { number < 8 → result ≡ get_or (around cell) number origin }
    ensures placed { IsPlace cell → IsInReach result }
{
    match number {
        0 => (cell.0 - 1, cell.1 - 1),
        1 => (cell.0, cell.1 - 1),
        2 => (cell.0 + 1, cell.1 - 1),
        3 => (cell.0 - 1, cell.1),
        4 => (cell.0 + 1, cell.1),
        5 => (cell.0 - 1, cell.1 + 1),
        6 => (cell.0, cell.1 + 1),
        _ => (cell.0 + 1, cell.1 + 1),
    }
}
