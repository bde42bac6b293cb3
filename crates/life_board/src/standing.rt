//! The test of whether the cells of a list, moved as a whole, may be live in a square, in rows of 64.
ghost use Rattle.std.specs.Prelude.{◌≡◌, ◌+ℤ◌, ◌<◌, pos, All, false, length, slice_index};
ghost use Rattle.life_model.specs.Cell.{Cell};
ghost use Rattle.life_cells.specs.Limits.{IsPlace};
ghost use Rattle.life_tile.specs.Standing.{AreMembers, HasNoneInRow};
ghost use Rattle.life_board.specs.Squares.{members_of, IsSquare};

use crate::covering::{moved, row_from};
use crate::small::Square;

/// False only if no move that takes the first of the cells to a live cell of row `y` makes all of them live.
fn may_stand_in_row(square: &Square, cells: &[(i32, i32)], y: usize) -> bool
    requires kept { IsSquare square.now }
    requires some { 0 < length cells.now }
    requires placed { All IsPlace cells.now }
    requires y { y < 64 }
    ensures { result ≡ false →
        HasNoneInRow (members_of square.now) cells.now 0 (slice_index square.now.tile.rows y)
        (square.now.left, square.now.top +ℤ pos y) }
{
    // (the bits at which the cells examined so far are live)
    let mut left = square.tile.rows[y];
    for n in 1..cells.len() {
        if left == 0 {
            return false;
        }
        let corner = moved((square.left, square.top), cells[0], cells[n]);
        left &= row_from(square, (corner.0, corner.1 + y as i32));
    }
    left != 0
}

/// False only if no move makes all of the cells live.
pub fn may_stand(square: &Square, cells: &[(i32, i32)]) -> bool
    requires kept { IsSquare square.now }
    requires placed { All IsPlace cells.now }
    ensures { result ≡ false → (d : Cell) → AreMembers (members_of square.now) cells.now d → ⊥ }
{
    if cells.is_empty() {
        return true;
    }
    for y in square.first..square.end {
        if may_stand_in_row(square, cells, y) {
            return true;
        }
    }
    false
}
