//! The place of the square of a pattern.
ghost use Rattle.std.specs.Prelude.{pos, negsuc, ◌≤ℤ◌, All};
ghost use Rattle.life_cells.specs.Limits.{IsPlace, last_place};
ghost use Rattle.life_board.specs.Squares.{IsFarFromEnds, IsRange};
ghost use Rattle.life_board.specs.Limits.{corner_limit};

/// The range, widened to contain a number.
fn widened(range: (i32, i32), number: i32) -> (i32, i32)
    requires range { IsRange range }
    requires from { negsuc last_place ≤ℤ number }
    requires to { number ≤ℤ pos last_place }
    ensures { IsRange result }
{
    (
        if number < range.0 { number } else { range.0 },
        if range.1 < number { number } else { range.1 },
    )
}

/// The first of 64 columns with this range in their middle, if it fits into them. It is used for rows too.
fn start_around(range: (i32, i32)) -> i32
    requires { IsRange range }
    ensures from { negsuc corner_limit ≤ℤ result }
    ensures to { result ≤ℤ pos corner_limit }
{
    (range.0 + range.1).div_euclid(2) - 32
}

/// The corner of a square of 64 by 64 cells with these cells, which are in order, in its middle, if they fit into it.
pub fn corner_around(cells: &[(i32, i32)]) -> (i32, i32)
    requires { All IsPlace cells.now }
    ensures { IsFarFromEnds result.0 result.1 }
{
    if cells.is_empty() {
        return (0, 0);
    }
    let mut columns = (cells[0].0, cells[0].0);
    for cell in cells {
        columns = widened(columns, cell.0);
    }
    let rows = (cells[0].1, cells[cells.len() - 1].1);
    (start_around(columns), start_around(rows))
}
