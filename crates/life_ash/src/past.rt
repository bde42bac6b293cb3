//! Walking on from the bound, and counting the cells.
ghost use Rattle.std.specs.Prelude.{◌≡◌, ◌*◌, ◌+◌, ◌<◌, ◌≤◌, ◌^◌, IfOk};
ghost use Rattle.life_model.specs.Evolution.{generation};
ghost use Rattle.life_model.specs.Generation.{Generation};
ghost use Rattle.life_ash.specs.Ahead.{IfNothing, IsFound, IsFoundPast};
ghost use Rattle.life_ash.specs.Allowed.{AreAllowedBefore};
ghost use Rattle.life_ash.specs.Counted.{IsPast};
ghost use Rattle.life_ash.specs.Parts.{ash_age_limit};

use crate::ahead::found_if_due;
use crate::found::Found;
use crate::known::Known;
use crate::limit::is_allowed;
use crate::stretches::Totals;
use life_plane::{AGE_LIMIT, Observer, Plane};
use life_strays::Pace;
use std::alloc::{AllocError, Global};

/// Walks on to the age `end` as `walk_on` does, from a generation that is no earlier than that of the bound, and counts the
/// cells of each generation before the end.
pub fn count_on<P: Plane, W: Observer>(
    alloc: Global,
    observer: &W,
    plane: &mut P,
    totals: &mut Totals,
    met: &mut Known,
    pace: &mut Pace,
    limit: Option<u32>,
    end: u32,
    last: u32,
) -> Result<Found, AllocError>
    requires start { P.steps_made plane.old ≤ end }
    requires past { met.old.bound ≤ P.steps_made plane.old }
    requires small { totals.old.total ≤ P.steps_made plane.old * 2 ^ 64 }
    requires end { end ≤ last + 1 × end ≤ ash_age_limit + 1 }
    requires last { last ≤ AGE_LIMIT }
    ensures same { met.new ≡ met.old }
    ensures age { IfOk result (λ found. IfNothing found (P.steps_made plane.new ≡ end)) }
    ensures small { IfOk result (λ found. IfNothing found (totals.new.total ≤ end * 2 ^ 64)) }
    ensures past { IfOk result (λ found. IfNothing found ((G : Generation) →
        IsPast met.old.rule met.old.bound G (P.steps_made plane.old) (P.members plane.old) totals.old →
        IsPast met.old.rule met.old.bound G end (P.members plane.new) totals.new)) }
    ensures found { IfOk result (λ found. (G : Generation) →
        P.members plane.old ≡ generation met.old.rule G (P.steps_made plane.old) →
        AreAllowedBefore met.old.rule G limit (P.steps_made plane.old) →
        IsFound met.old.rule met.old.bound G limit (P.steps_made plane.old) end last found) }
{
    let rule = met.rule();
    let bound = met.bound();
    for age in plane.age()..end {
        observer.reached(age);
        let population = plane.population();
        if !is_allowed(limit, population) {
            return Ok(Found::Large { generation: age });
        }
        pace.count(age, population);
        if let Some(found) = found_if_due(alloc, plane, met, pace, limit, age, last)? {
            return Ok(found);
        }
        totals.add(bound, population)?;
        plane.step(&rule)?;
    }
    Ok(Found::Nothing)
}

/// Walks on from the generation of the bound to three times the bound.
pub fn found_past<P: Plane, W: Observer>(
    alloc: Global,
    observer: &W,
    plane: &mut P,
    totals: &mut Totals,
    met: &mut Known,
    pace: &mut Pace,
    limit: Option<u32>,
) -> Result<Found, AllocError>
    requires age { P.steps_made plane.old ≡ met.old.bound }
    requires none { totals.old.total ≡ 0 }
    ensures same { met.new ≡ met.old }
    ensures age { IfOk result (λ found. IfNothing found (P.steps_made plane.new ≡ 3 * met.old.bound + 1)) }
    ensures small { IfOk result (λ found. IfNothing found (totals.new.total ≤ (3 * met.old.bound + 1) * 2 ^ 64)) }
    ensures past { IfOk result (λ found. IfNothing found ((G : Generation) →
        IsPast met.old.rule met.old.bound G met.old.bound (P.members plane.old) totals.old →
        IsPast met.old.rule met.old.bound G (3 * met.old.bound + 1) (P.members plane.new) totals.new)) }
    ensures found { IfOk result (λ found. (G : Generation) →
        P.members plane.old ≡ generation met.old.rule G met.old.bound →
        AreAllowedBefore met.old.rule G limit met.old.bound →
        IsFoundPast met.old.rule met.old.bound G limit found) }
{
    let last = 3 * met.bound();
    count_on(
        alloc,
        observer,
        plane,
        totals,
        met,
        pace,
        limit,
        last + 1,
        last,
    )
}
