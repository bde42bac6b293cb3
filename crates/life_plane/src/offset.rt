//! The offset of a set of cells from another, of which it is a translate.
ghost use Rattle.std.specs.Prelude.{All, IfNone, IfSome, T};
ghost use Rattle.life_model.specs.Generation.{from_list, is_rising};
ghost use Rattle.life_cells.specs.Limits.{IsPlace};
ghost use Rattle.life_plane.specs.Offsets.{AreNotTranslates, IsOffset};

use crate::span::move_between;

/// The offset of the second list from the first, if it is the first list moved as a whole. For empty lists the offset
/// is (0, 0).
pub fn offset_between(from: &[(i32, i32)], to: &[(i32, i32)]) -> Option<(i32, i32)>
    requires from_rising { T (is_rising from.now) }
    requires to_rising { T (is_rising to.now) }
    requires from_placed { All IsPlace from.now }
    requires to_placed { All IsPlace to.now }
    ensures offset { IfSome result (λ d. IsOffset (from_list from.now) (from_list to.now) d) }
    ensures apart { IfNone result (AreNotTranslates (from_list from.now) (from_list to.now)) }
{
    if from.len() != to.len() {
        return None;
    }
    if from.is_empty() {
        return Some((0, 0));
    }
    let offset = move_between(from[0], to[0]);
    for i in 0..from.len() {
        if move_between(from[i], to[i]) != offset {
            return None;
        }
    }
    Some(offset)
}
