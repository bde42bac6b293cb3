//! Sets that recur, before they became what they are.
ghost use Rattle.std.specs.Prelude.{◌≡◌, ◌≤◌, All, IfNone, IfOk, IfSome};
ghost use Rattle.life_model.specs.Evolution.{generation};
ghost use Rattle.life_model.specs.Generation.{Generation};
ghost use Rattle.life_model.specs.Generation as generations;
ghost use Rattle.life_model.specs.Recurrence.{RecursBy};
ghost use Rattle.life_cells.specs.Limits.{IsWithin};
ghost use Rattle.life_ash.specs.Parts.{ash_age_limit};

use life_cells::CellList;
use life_orbit::Orbit;
use std::alloc::{AllocError, Global};

/// The greatest age of a plane whose cells are reported as ash.
const ASH_AGE_LIMIT: u32 = 400_000;

/// The set that recurs as this orbit does and becomes its set after `ago` generations, if it is in the field at age 400,000.
pub fn set_before(alloc: Global, orbit: &Orbit, ago: u32) -> Result<Option<CellList>, AllocError>
    requires { 1 ≤ ago × ago ≤ ash_age_limit }
    ensures within { IfOk result
        (λ found. IfSome found (λ set. All (IsWithin ash_age_limit) (generations.cells set))) }
    ensures set { IfOk result (λ found. IfSome found (λ set. (P : Generation) →
        RecursBy orbit.now.rule P orbit.now.period orbit.now.displacement →
        generation orbit.now.rule P ago ≡ orbit.now.set → set ≡ P)) }
    ensures outside { IfOk result (λ found. IfNone found ((P : Generation) →
        RecursBy orbit.now.rule P orbit.now.period orbit.now.displacement →
        generation orbit.now.rule P ago ≡ orbit.now.set →
        All (IsWithin ash_age_limit) (generations.cells P) → ⊥)) }
{
    let Some(set) = orbit.set_ago(alloc, ago)? else {
        return Ok(None);
    };
    if set.fits_at(ASH_AGE_LIMIT) {
        return Ok(Some(set));
    }
    Ok(None)
}
