//! Sets that no other cell comes near for a while.
ghost use Rattle.std.specs.Prelude.{◌≡◌, ◌+◌, ◌≤◌, IfOk, IfSome};
ghost use Rattle.life_model.specs.Evolution.{generation};
ghost use Rattle.life_model.specs.Generation.{Generation};
ghost use Rattle.life_model.specs.Rule.{Rule as ModelRule};
ghost use Rattle.life_objects.specs.Apart.{AreApartBefore};
ghost use Rattle.life_objects.specs.Union.{IsSubsetOf};
ghost use Rattle.life_apart.specs.Alone.{IsEndAlone, others_of};

use crate::clearance::room;
use life_cells::{CellList, Rule};
use life_plane::{AGE_LIMIT, Plane};
use std::alloc::{AllocError, Global};

/// The generation before which no other cell is near a set. The plane `alone` is at generation `n` of the set, and
/// `all` at that of all cells. The same is already known before generation `sure`, which is `n` or later. The result is
/// `n` if another cell may be near.
fn sure_until<P: Plane>(alone: &P, all: &P, n: u32, sure: u32) -> Result<u32, AllocError>
    requires { n ≤ AGE_LIMIT }
    ensures { IfOk result (λ until. (R : ModelRule) (G L : Generation) → IsSubsetOf L G →
        P.members all.now ≡ generation R G n → P.members alone.now ≡ generation R L n → n ≤ sure →
        AreApartBefore R sure L (others_of G L) → AreApartBefore R until L (others_of G L)) }
{
    if n < sure {
        return Ok(sure);
    }
    Ok(n + room(&alone.cells()?, &all.cells()?))
}

/// The set that some of a plane's cells become in `bound` generations, if no other cell is seen to come near them until
/// then. `None` means nothing: others may still stay away. All cells are looked at only in generations in which others
/// may be near. The plane is unchanged.
pub fn end_alone<P: Plane>(
    alloc: Global,
    plane: &P,
    rule: &Rule,
    set: &CellList,
    bound: u32,
) -> Result<Option<CellList>, AllocError>
    requires young { P.steps_made plane.now + bound ≤ AGE_LIMIT }
    requires within { IsSubsetOf set.now (P.members plane.now) }
    ensures { IfOk result (λ found. IfSome found
        (IsEndAlone rule.now bound (P.members plane.now) set.now)) }
{
    let mut all = plane.copy()?;
    let mut alone = P::at_age(alloc, set, all.age())?;
    let mut sure = 0;
    for n in 0..bound {
        sure = sure_until(&alone, &all, n, sure)?;
        if sure <= n {
            return Ok(None);
        }
        all.step(rule)?;
        alone.step(rule)?;
    }
    if sure_until(&alone, &all, bound, sure)? <= bound {
        return Ok(None);
    }
    Ok(Some(alone.cells()?))
}
