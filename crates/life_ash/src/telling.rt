//! The ash that the cells of the bound are, as later generations show.
ghost use Rattle.std.specs.Prelude.{◌≡◌, ℕ, ◌*◌, ◌+◌, ◌^◌, ◌≤◌, All, IfNone, IfOk, IfSome, List};
ghost use Rattle.std.specs.Bool.{OnTrue};
ghost use Rattle.life_model.specs.Evolution.{generation};
ghost use Rattle.life_model.specs.Generation.{Generation};
ghost use Rattle.life_model.specs.Rule.{Rule as ModelRule};
ghost use Rattle.life_objects.specs.Ash.{IsAsh};
ghost use Rattle.life_apart.specs.Sets.{IsCourseBy, sets_of};
ghost use Rattle.life_ash.specs.Ahead.{IsAshThen};
ghost use Rattle.life_ash.specs.Counted.{IsPast};
ghost use Rattle.life_ash.specs.Fates.{EndsLater};
ghost use Rattle.life_ash.specs.Parts.{ash_age_limit};
ghost use Rattle.life_ash.specs.Telling.{IsAtBound};

use crate::ash_orbits::{Ash, ash_before, ash_by};
use crate::at_bound::AtBound;
use crate::far::told_later;
use crate::known::Known;
use crate::stretches::Totals;
use crate::told::Told;
use life_orbit::Orbit;
use life_plane::Plane;
use life_strays::Pace;
use std::alloc::{AllocError, Global};

/// The result for cells that are this ash, or none. If they are none, `ends` says whether they are seen to become ash later.
fn at_bound(ash: Option<Ash>, ends: bool) -> AtBound
    ensures { (R : ModelRule) (b : ℕ) (H : Generation) →
        IfSome ash (λ ash. IsAsh R b H (sets_of ash)) → IfSome ash (All (IsCourseBy R)) →
        IfNone ash ((parts : List Generation) → IsAsh R b H parts → ⊥) →
        OnTrue ends (EndsLater R H) → IsAtBound R b H result }
{
    match ash {
        Some(ash) => AtBound::Ash { ash },
        None => AtBound::NoAsh { ends },
    }
}

/// The result for a plane's cells, which become ash of the parts `later` after `ago` generations.
pub fn ash_by_later<P: Plane>(
    alloc: Global,
    plane: &P,
    known: &mut Known,
    later: Vec<Orbit>,
    ago: u32,
) -> Result<AtBound, AllocError>
    requires young { P.steps_made plane.now ≤ ash_age_limit }
    requires ago { ago ≤ ash_age_limit }
    requires ash { IsAshThen known.old.rule known.old.bound (P.members plane.now) ago later.items }
    ensures { IfOk result (IsAtBound known.old.rule known.old.bound (P.members plane.now)) }
{
    let ash = ash_before(alloc, plane, known, later, ago)?;
    Ok(at_bound(ash, true))
}

/// The result for a plane's cells, which are as old as the bound. Later generations usually decide it: the one after three
/// times the bound is on a plane of its own, and those before it are counted. `is_no_ash` may be set if they are known to be no
/// ash.
pub fn ash_told<P: Plane>(
    alloc: Global,
    plane: &P,
    later: P,
    totals: Totals,
    known: &mut Known,
    pace: &mut Pace,
    is_no_ash: bool,
) -> Result<AtBound, AllocError>
    requires young { P.steps_made plane.now ≤ ash_age_limit }
    requires age { P.steps_made plane.now ≡ known.old.bound }
    requires later { P.steps_made later ≡ 3 * known.old.bound + 1 }
    requires small { totals.total ≤ (3 * known.old.bound + 1) * 2 ^ 64 }
    requires past { (G : Generation) × (P.members plane.now ≡ generation known.old.rule G known.old.bound) ×
        IsPast known.old.rule known.old.bound G (3 * known.old.bound + 1) (P.members later) totals }
    requires no_ash { OnTrue is_no_ash ((parts : List Generation) →
        IsAsh known.old.rule known.old.bound (P.members plane.now) parts → ⊥) }
    ensures { IfOk result (IsAtBound known.old.rule known.old.bound (P.members plane.now)) }
{
    if is_no_ash {
        return Ok(AtBound::NoAsh { ends: false });
    }
    match told_later(alloc, plane, later, totals, known, pace)? {
        Told::Parts { parts, ago } => ash_by_later(alloc, plane, known, parts, ago),
        Told::Never => Ok(AtBound::NoAsh { ends: false }),
        Told::Nothing => Ok(at_bound(ash_by(alloc, plane, known)?, false)),
    }
}
