//! The offset of the last of some cells from the first.
ghost use Rattle.std.specs.Prelude.{◌≡◌, All};
ghost use Rattle.life_model.specs.Cell.{opposite, plus};
ghost use Rattle.life_cells.specs.Limits.{IsPlace};
ghost use Rattle.life_plane.specs.Span.{list_span};

/// The move from one cell to another.
pub fn move_between(from: (i32, i32), to: (i32, i32)) -> (i32, i32)
    requires from_placed { IsPlace from }
    requires to_placed { IsPlace to }
    ensures { result ≡ plus to (opposite from) }
{
    (to.0 - from.0, to.1 - from.1)
}

/// The offset of the last cell from the first, or (0, 0) if there is none.
pub fn span_of(cells: &[(i32, i32)]) -> (i32, i32)
    requires { All IsPlace cells.now }
    ensures { result ≡ list_span cells.now }
{
    if cells.is_empty() {
        return (0, 0);
    }
    move_between(cells[0], cells[cells.len() - 1])
}
