//! The test of whether cells, moved as a whole, may be among others.
ghost use Rattle.std.specs.Prelude.{◌≡◌, ◌<◌, ℕ, All, T, false, true, get_or, length};
ghost use Rattle.life_model.specs.Cell.{Cell, opposite, origin, plus};
ghost use Rattle.life_model.specs.Generation.{is_rising};
ghost use Rattle.life_cells.specs.Limits.{IsPlace};
ghost use Rattle.life_plane.specs.Field.{has};

use crate::evolve::is_live;

/// The cell after the move from one place to another.
fn moved(cell: (i32, i32), from: (i32, i32), to: (i32, i32)) -> (i32, i32)
    requires cell { IsPlace cell }
    requires from { IsPlace from }
    requires to { IsPlace to }
    ensures { result ≡ plus cell (plus to (opposite from)) }
{
    (cell.0 - from.0 + to.0, cell.1 - from.1 + to.1)
}

/// False only if no move takes all of these cells to cells of a list, which is in order. Only the first and the last
/// of them are checked.
pub fn may_have_moved(list: &[(i32, i32)], cells: &[(i32, i32)]) -> bool
    requires rising { T (is_rising list.now) }
    requires listed { All IsPlace list.now }
    requires placed { All IsPlace cells.now }
    ensures { result ≡ false → (d : Cell) →
        ((n : ℕ) → n < length cells.now → has list.now (plus (get_or cells.now n origin) d) ≡ true) → ⊥ }
{
    if cells.is_empty() {
        return true;
    }
    let from = cells[0];
    let last = cells[cells.len() - 1];
    let mut cursor = 0;
    for to in list {
        if is_live(list, &mut cursor, moved(last, from, *to)) {
            return true;
        }
    }
    false
}
