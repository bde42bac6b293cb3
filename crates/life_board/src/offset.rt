//! The test of whether the cells of a square are given cells, moved as a whole.
ghost use Rattle.std.specs.Prelude.{All, IfNone, IfSome, T};
ghost use Rattle.life_model.specs.Generation.{from_list, is_rising};
ghost use Rattle.life_cells.specs.Limits.{IsPlace};
ghost use Rattle.life_plane.specs.Offsets.{AreNotTranslates, IsOffset};
ghost use Rattle.life_board.specs.Squares.{members_of, IsSquare};

use crate::covering::{are_live, has_square};
use crate::small::Square;
use life_plane::move_between;

/// The offset of the live cells from those of a list, if they are those moved as a whole. They are if their number is
/// the same and each cell of the list is live after the move that takes the first of them to the first live cell.
pub fn offset_from(square: &Square, cells: &[(i32, i32)]) -> Option<(i32, i32)>
    requires kept { IsSquare square.now }
    requires rising { T (is_rising cells.now) }
    requires placed { All IsPlace cells.now }
    ensures offset { IfSome result (λ d. IsOffset (from_list cells.now) (members_of square.now) d) }
    ensures apart { IfNone result (AreNotTranslates (from_list cells.now) (members_of square.now)) }
{
    if square.population() != cells.len() as u64 {
        return None;
    }
    match square.ends() {
        None => Some((0, 0)),
        Some(ends) => {
            let from = cells[0];
            if !are_live(square, cells, from, ends.0) {
                return None;
            }
            Some(move_between(from, ends.0))
        }
    }
}

/// The offset of the live cells from those of another square, if they are those moved as a whole. They are if their
/// number is the same and each cell of the other is live after the move that takes the first of them to the first live
/// cell.
pub fn offset_from_square(square: &Square, other: &Square) -> Option<(i32, i32)>
    requires kept { IsSquare square.now }
    requires other { IsSquare other.now }
    ensures offset { IfSome result
        (λ d. IsOffset (members_of other.now) (members_of square.now) d) }
    ensures apart { IfNone result
        (AreNotTranslates (members_of other.now) (members_of square.now)) }
{
    if square.population() != other.population() {
        return None;
    }
    match other.ends() {
        None => Some((0, 0)),
        Some(from) => match square.ends() {
            None => Some((0, 0)),
            Some(to) => {
                if !has_square(square, other, from.0, to.0) {
                    return None;
                }
                Some(move_between(from.0, to.0))
            }
        },
    }
}
