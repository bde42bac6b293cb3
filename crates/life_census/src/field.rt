//! Sets that are where planes may have cells.
ghost use Rattle.std.specs.Prelude.{IsTrue, neg_ℤ, pos, ◌+◌, ◌≤ℤ◌};
ghost use Rattle.life_ash.specs.Parts.{IsPlaced, ash_age_limit};
ghost use Rattle.life_cells.specs.Limits.{last_pattern_place};

use life_orbit::Orbit;

/// The least coordinate in the field at age 400,000.
const FIRST_PLACE: i32 = -400_000;

/// The greatest coordinate in the field at age 400,000.
const LAST_PLACE: i32 = 1_448_575;

/// True if these coordinates are in the field at age 400,000, and so all between them are.
fn are_places(least: i32, greatest: i32) -> bool
    ensures least { IsTrue result → neg_ℤ (pos ash_age_limit) ≤ℤ least }
    ensures greatest { IsTrue result → greatest ≤ℤ pos (last_pattern_place + ash_age_limit) }
{
    FIRST_PLACE <= least && greatest <= LAST_PLACE
}

/// True if the cells of an orbit's set are in the field at age 400,000, as the cells of all planes used here are.
pub fn is_placed(orbit: &Orbit) -> bool
    ensures { IsTrue result → IsPlaced orbit.now }
{
    let hull = orbit.hull();
    if !are_places(hull.left, hull.right) {
        return false;
    }
    are_places(hull.top, hull.bottom)
}
