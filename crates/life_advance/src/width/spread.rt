//! The distances between the cells of a list.
ghost use Rattle.std.specs.Prelude.{All};
ghost use Rattle.life_model.specs.Generation.{from_list};
ghost use Rattle.life_cells.specs.Limits.{IsPlace};
ghost use Rattle.life_advance.specs.Width.Spans.{SpansColumns, SpansRows};

/// The number of columns from the leftmost cell to the rightmost one, and of rows from the highest to the lowest.
#[derive(Clone, Copy)]
pub struct Spread {
    pub columns: u32,
    pub rows: u32,
}

/// The spread of cells. If there is none, any numbers will do.
pub fn spread_of(cells: &[(i32, i32)]) -> Spread
    requires { All IsPlace cells.now }
    ensures columns { SpansColumns (from_list cells.now) result.columns }
    ensures rows { SpansRows (from_list cells.now) result.rows }
{
    let mut west = i32::MAX;
    let mut east = i32::MIN;
    let mut north = i32::MAX;
    let mut south = i32::MIN;
    for cell in cells {
        west = west.min(cell.0);
        east = east.max(cell.0);
        north = north.min(cell.1);
        south = south.max(cell.1);
    }
    Spread {
        columns: east.abs_diff(west),
        rows: south.abs_diff(north),
    }
}
