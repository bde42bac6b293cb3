//! The cells of a small frame as words, by rows and by columns.
ghost use Rattle.std.specs.Prelude.{◌≡◌, ◌++◌, ◌*◌, ◌+◌, ◌<◌, ◌≤◌, ◌∷◌, ℕ, All, List, [], length, map, pos};
ghost use Rattle.life_model.specs.Cell.{Cell};
ghost use Rattle.life_model.specs.Symmetry.{Same, Swap};
ghost use Rattle.life_cells.specs.Limits.{IsPlace};
ghost use Rattle.life_codes.specs.Lengths.Frames.{IsBounded, IsInFrame, cell_in_frame, turned_frame, wide_of};
ghost use Rattle.life_codes.specs.Lengths.Words.{HoldsRows, IsSmallFrame, AreWithinColumns, five_rows};

use crate::lengths::frame::{Frame, place_in};
use life_cells::Orient;

/// The number of rows without a cell above the first, for the last strip from the bottom, which may begin above it.
pub const ABOVE: usize = 4;
/// The number of words for those and for the rows of thirteen strips.
pub const ROWS: usize = 69;

/// Marks a cell in its row.
#[inline(always)]
fn mark(rows: &mut [u64], column: usize, row: usize)
    requires room { length rows.old ≡ 69 }
    requires column { column < 64 }
    requires row { row < 64 }
    ensures len { length rows.new ≡ length rows.old }
    ensures marks { (cells : List Cell) → HoldsRows rows.old cells →
        HoldsRows rows.new (cells ++ (pos column, pos row) ∷ []) }
    ensures within { (wide : ℕ) → column < wide → AreWithinColumns rows.old wide →
        AreWithinColumns rows.new wide }
{
    rows[row + ABOVE] |= 1 << column;
}

/// Marks cells of the frame in their rows and, with x and y swapped, in their columns.
pub fn mark_cells(rows: &mut [u64], columns: &mut [u64], cells: &[(i32, i32)], frame: Frame)
    requires room { length rows.old ≡ 69 }
    requires columns_room { length columns.old ≡ 69 }
    requires empty { All (λ w. w ≡ 0) rows.old }
    requires columns_empty { All (λ w. w ≡ 0) columns.old }
    requires bounded { IsBounded frame }
    requires small { IsSmallFrame frame }
    requires placed { All IsPlace cells.now }
    requires inside { All (IsInFrame frame) cells.now }
    ensures room { length rows.new ≡ 69 }
    ensures columns_room { length columns.new ≡ 69 }
    ensures rows { HoldsRows rows.new (map (cell_in_frame Same frame) cells.now) }
    ensures columns { HoldsRows columns.new
        (map (cell_in_frame Swap (turned_frame Swap frame)) cells.now) }
    ensures within { AreWithinColumns rows.new (wide_of frame) }
    ensures columns_within { AreWithinColumns columns.new (wide_of (turned_frame Swap frame)) }
{
    for cell in cells {
        let (x, y) = place_in(*cell, Orient::Same, frame);
        mark(rows, x, y);
        mark(columns, y, x);
    }
}

/// The columns that have a cell in one of five rows.
#[inline(always)]
pub fn columns_of(rows: &[u64], first: usize) -> u64
    requires { first + 5 ≤ length rows.now }
    ensures { result ≡ five_rows rows.now first }
{
    let upper = rows[first] | rows[first + 1];
    upper | rows[first + 2] | rows[first + 3] | rows[first + 4]
}
