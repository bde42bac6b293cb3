//! The test of whether some cells, moved as a whole, are live in a square: those of a list one by one, and those of
//! another square in rows of 64.
ghost use Rattle.std.specs.Prelude.{◌≡◌, ◌≢◌, ◌↔◌, ◌+ℤ◌, ◌<◌, ◌<ℤ◌, ◌≤ℤ◌, ℕ, pos, negsuc, All, IfNone, IfSome, IsTrue};
ghost use Rattle.std.specs.Int.{bit_at};
ghost use Rattle.life_model.specs.Cell.{Cell, opposite, plus};
ghost use Rattle.life_model.specs.Generation.{contains};
ghost use Rattle.life_cells.specs.Limits.{IsPlace};
ghost use Rattle.life_slots.specs.Ends.{IsMember};
ghost use Rattle.life_tile.specs.Reach.{IsInReach, IsRowIn};
ghost use Rattle.life_slots.specs.Cells.{state_at};
ghost use Rattle.life_slots.specs.Limits.{reach_limit};
ghost use Rattle.life_board.specs.Limits.{corner_limit};
ghost use Rattle.life_board.specs.Squares.{members_of, IsSquare, IsFarFromEnds};

use crate::small::Square;

/// The number of a column among the 64 from a column on, if it is one of these. It is used for rows too.
fn index_from(z: i32, from: i32) -> Option<usize>
    requires west { negsuc reach_limit ≤ℤ z }
    requires east { z ≤ℤ pos reach_limit }
    requires from_west { negsuc corner_limit ≤ℤ from }
    requires from_east { from ≤ℤ pos corner_limit }
    ensures inside { IfSome result (λ n. n < 64) }
    ensures is { IfSome result (λ n. z ≡ (from +ℤ pos n)) }
    ensures outside { IfNone result ((n : ℕ) → n < 64 → z ≢ (from +ℤ pos n)) }
{
    let offset = z - from;
    if 0 <= offset && offset < 64 {
        Some(offset as usize)
    } else {
        None
    }
}

/// True where a cell is live.
fn is_live(square: &Square, cell: (i32, i32)) -> bool
    requires kept { IsSquare square.now }
    requires reach { IsInReach cell }
    ensures { result ≡ contains (members_of square.now) cell }
{
    match index_from(cell.0, square.left) {
        None => false,
        Some(x) => match index_from(cell.1, square.top) {
            None => false,
            Some(y) => square.tile.get(x, y),
        },
    }
}

/// The cell after the move from one place to another.
pub fn moved(cell: (i32, i32), from: (i32, i32), to: (i32, i32)) -> (i32, i32)
    requires cell { IsFarFromEnds cell.0 cell.1 }
    requires from { IsPlace from }
    requires to { IsPlace to }
    ensures is { result ≡ plus cell (plus to (opposite from)) }
    ensures reach { IsInReach result }
{
    (cell.0 - from.0 + to.0, cell.1 - from.1 + to.1)
}

/// True where each of some cells is live after the move from one place to another.
pub fn are_live(square: &Square, cells: &[(i32, i32)], from: (i32, i32), to: (i32, i32)) -> bool
    requires kept { IsSquare square.now }
    requires placed { All IsPlace cells.now }
    requires from { IsPlace from }
    requires to { IsPlace to }
    ensures { IsTrue result ↔ All
        (λ c. IsMember (members_of square.now) (plus c (plus to (opposite from)))) cells.now }
{
    for cell in cells {
        if !is_live(square, moved(*cell, from, to)) {
            return false;
        }
    }
    true
}

/// The 64 bits of a word from a bit on. There are zeros before its first bit and after its last.
fn bits_from(word: u64, from: i32) -> u64
    ensures inside { (j n : ℕ) → j < 64 → n < 64 → (from +ℤ pos j) ≡ pos n →
        bit_at result j ≡ bit_at word n }
    ensures before { (j : ℕ) → j < 64 → (from +ℤ pos j) <ℤ pos 0 → bit_at result j ≡ 0 }
    ensures behind { (j : ℕ) → j < 64 → pos 64 ≤ℤ (from +ℤ pos j) → bit_at result j ≡ 0 }
{
    if from <= -64 {
        0
    } else if from < 0 {
        word << (-from) as u32
    } else if from < 64 {
        word >> from as u32
    } else {
        0
    }
}

/// The cell and the 63 to the east of it.
pub fn row_from(square: &Square, cell: (i32, i32)) -> u64
    requires kept { IsSquare square.now }
    requires reach { IsInReach cell }
    ensures { (j : ℕ) → j < 64 →
        bit_at result j ≡ state_at (members_of square.now) (cell.0 +ℤ pos j) cell.1 }
{
    match index_from(cell.1, square.top) {
        None => 0,
        Some(y) => bits_from(square.tile.rows[y], cell.0 - square.left),
    }
}

/// True where each set bit of a word is a live cell. Bit 0 is at `start`.
fn has_row(square: &Square, word: u64, start: (i32, i32)) -> bool
    requires kept { IsSquare square.now }
    requires reach { IsInReach start }
    ensures { IsTrue result ↔ IsRowIn (members_of square.now) word start }
{
    word & !row_from(square, start) == 0
}

/// True where each live cell of another square is live in this one after the move from one place to another.
pub fn has_square(square: &Square, other: &Square, from: (i32, i32), to: (i32, i32)) -> bool
    requires kept { IsSquare square.now }
    requires other { IsSquare other.now }
    requires from { IsPlace from }
    requires to { IsPlace to }
    ensures { IsTrue result ↔
        ((c : Cell) → IsMember (members_of other.now) c →
        IsMember (members_of square.now) (plus c (plus to (opposite from)))) }
{
    let corner = moved((other.left, other.top), from, to);
    for y in other.first..other.end {
        if !has_row(square, other.tile.rows[y], (corner.0, corner.1 + y as i32)) {
            return false;
        }
    }
    true
}
