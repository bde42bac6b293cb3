//! The fate of patterns.
ghost use Rattle.std.specs.Prelude.{◌≡◌, ℕ, ◌≤◌, All, IfNone, IfOk, IfSome, List, Option};
ghost use Rattle.life_model.specs.Evolution.{generation};
ghost use Rattle.life_model.specs.Generation.{Generation};
ghost use Rattle.life_model.specs.Rule.{Rule as ModelRule};
ghost use Rattle.life_model.specs.Generation as generations;
ghost use Rattle.life_cells.specs.Limits.{IsWithin};
ghost use Rattle.std.specs.Bool.{OnTrue};
ghost use Rattle.life_objects.specs.Ash.{HasFallenApart, IsAsh};
ghost use Rattle.life_apart.specs.Onsets.Moments.{IsMomentOf};
ghost use Rattle.life_ash.specs.Allowed.{AreAllowedBefore};
ghost use Rattle.life_ash.specs.Fates.{IsFate, IsSmallEnough};
ghost use Rattle.life_ash.specs.Telling.{IsAtBound};
ghost use Rattle.life_apart.specs.Sets.{IsCourseBy, sets_of};

use crate::ahead::walk_on;
use crate::ash_orbits::Ash;
use crate::at_bound::AtBound;
use crate::found::Found;
use crate::known::Known;
use crate::past::found_past;
use crate::pattern_fate::Fate;
use crate::stretches::Totals;
use crate::telling::{ash_by_later, ash_told};
use life_apart::Trail;
use life_cells::{CellList, Rule};
use life_orbit::BOUND_LIMIT;
use life_plane::{Observer, Plane};
use life_strays::Pace;
use std::alloc::{AllocError, Global};

/// The fate of a pattern, from the result for its generation of the bound. No generation up to three times the bound is past
/// the limit. Some generations on the way are on a trail.
fn fate_of(found: AtBound, bound: u32, trail: Trail) -> Fate
    ensures { (R : ModelRule) (G : Generation) (limit : Option ℕ) →
        IsSmallEnough R G bound limit → All (IsMomentOf R G) trail →
        IsAtBound R bound (generation R G bound) found → IsFate R G bound limit result }
{
    match found {
        AtBound::Ash { ash } => Fate::Ash {
            ash,
            age: bound,
            trail,
        },
        AtBound::NoAsh { ends } => Fate::Unresolved { ends },
    }
}

/// The fate of a pattern whose generation of the bound is on a plane, if no ash was found before and no generation before has
/// more cells than it may have. This is the case where `walk_on`, from generation 0 to the bound, finds `Nothing`. The rule and
/// the bound are those of `met`. The trail has some of the pattern's generations. The plane is unchanged. `is_no_ash` may be
/// set if its cells are known to be no ash within the bound.
pub fn fate_past<P: Plane, W: Observer>(
    alloc: Global,
    observer: &W,
    plane: &P,
    met: &mut Known,
    pace: &mut Pace,
    trail: Trail,
    limit: Option<u32>,
    is_no_ash: bool,
) -> Result<Fate, AllocError>
    requires age { P.steps_made plane.now ≡ met.old.bound }
    requires no_ash { OnTrue is_no_ash ((parts : List Generation) →
        IsAsh met.old.rule met.old.bound (P.members plane.now) parts → ⊥) }
    requires later { (G : Generation) ×
        (P.members plane.now ≡ generation met.old.rule G met.old.bound) ×
        AreAllowedBefore met.old.rule G limit met.old.bound }
    ensures { IfOk result (λ fate. (G : Generation) →
        P.members plane.now ≡ generation met.old.rule G met.old.bound →
        AreAllowedBefore met.old.rule G limit met.old.bound → All (IsMomentOf met.old.rule G) trail →
        IsFate met.old.rule G met.old.bound limit fate) }
{
    let bound = met.bound();
    let mut later = plane.copy()?;
    let mut totals = Totals::new(alloc);
    Ok(
        match found_past(alloc, observer, &mut later, &mut totals, met, pace, limit)? {
            Found::Large { generation } => Fate::Large { generation },
            Found::Parts { parts, age } => {
                fate_of(
                    ash_by_later(alloc, plane, met, parts, age - bound)?,
                    bound,
                    trail,
                )
            }
            Found::Nothing => fate_of(
                ash_told(alloc, plane, later, totals, met, pace, is_no_ash)?,
                bound,
                trail,
            ),
        },
    )
}

/// The fate of a pattern within the bound. On the way to the bound it is checked now and then whether the pattern is ash, since
/// ash stays ash. With a limit, no generation from 0 to three times the bound may have more cells; generations after the one at
/// which ash is found are usually not looked at, since the parts give their sizes. The generations on the way are reported to
/// an observer.
pub fn fate<P: Plane, W: Observer>(
    alloc: Global,
    observer: &W,
    rule: &Rule,
    cells: &CellList,
    bound: u32,
    limit: Option<u32>,
) -> Result<Fate, AllocError>
    requires bound { 1 ≤ bound × bound ≤ BOUND_LIMIT }
    requires fits { All (IsWithin 0) (generations.cells cells.now) }
    ensures { IfOk result (λ fate. IsFate rule.now cells.now bound limit fate) }
{
    let mut plane = P::from_cells(alloc, cells)?;
    let mut pace = Pace::new();
    let mut met = Known::new(alloc, rule, bound);
    let mut trail = Trail::new(alloc);
    match walk_on(
        alloc,
        observer,
        &mut plane,
        &mut met,
        &mut pace,
        &mut trail,
        limit,
        bound,
        3 * bound,
    )? {
        Found::Large { generation } => Ok(Fate::Large { generation }),
        Found::Parts { parts, age } => Ok(Fate::Ash {
            ash: Ash::of(parts),
            age,
            trail,
        }),
        Found::Nothing => fate_past(
            alloc, observer, &plane, &mut met, &mut pace, trail, limit, false,
        ),
    }
}
