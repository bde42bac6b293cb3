//! Deciding whether sets recur, without keeping the generations on the way.
ghost use Rattle.std.specs.Prelude.{◌≡◌, ◌≤◌, All, IfOk, IsTrue};
ghost use Rattle.life_model.specs.Cell.{Cell};
ghost use Rattle.life_model.specs.Generation as generations;
ghost use Rattle.life_model.specs.Symmetry.{translate_of};
ghost use Rattle.life_cells.specs.Limits.{IsWithin};
ghost use Rattle.life_objects.specs.Ash.{RecursWithin};
ghost use Rattle.life_orbit.specs.Kept.{orbit_age_limit};

use life_cells::{CellList, Rule};
use life_orbit::BOUND_LIMIT;
use life_plane::Plane;
use std::alloc::{AllocError, Global};

/// The age of the plane on which a set is followed.
const AGE: u32 = 4_000_000;

/// True if a plane's cells are those of another, moved as a whole.
fn are_moved<P: Plane>(later: &P, first: &P) -> Result<bool, AllocError>
    ensures { IfOk result (λ are. (d : Cell) →
        P.members later.now ≡ translate_of (P.members first.now) d → IsTrue are) }
{
    if later.population() != first.population() {
        return Ok(false);
    }
    Ok(later.offset_from_plane(first)?.is_some())
}

/// True if a set recurs, moved as a whole, within `bound` generations. A set that does not is followed for all of them, but
/// none of them is kept.
pub fn comes_again<P: Plane>(
    alloc: Global,
    cells: &CellList,
    rule: &Rule,
    bound: u32,
) -> Result<bool, AllocError>
    requires bound { bound ≤ BOUND_LIMIT }
    requires within { All (IsWithin orbit_age_limit) (generations.cells cells.now) }
    ensures { IfOk result (λ does. RecursWithin rule.now bound cells.now → IsTrue does) }
{
    let first = P::at_age(alloc, cells, AGE)?;
    let mut later = first.copy()?;
    for _taken in 0..bound {
        later.step(rule)?;
        if are_moved(&later, &first)? {
            return Ok(true);
        }
    }
    Ok(false)
}
