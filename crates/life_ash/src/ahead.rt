//! Walking from generation to generation, in search of ash.
ghost use Rattle.std.specs.Prelude.{◌≡◌, ◌+◌, ◌<◌, ◌≤◌, ℕ, All, IfOk, IfSome};
ghost use Rattle.life_model.specs.Evolution.{generation};
ghost use Rattle.life_model.specs.Generation.{Generation};
ghost use Rattle.life_objects.specs.Ash.{IsAsh};
ghost use Rattle.life_orbit.specs.Course.{IsCourse};
ghost use Rattle.life_apart.specs.Onsets.Moments.{IsMomentOf};
ghost use Rattle.life_ash.specs.Ahead.{HasEnded, IfNothing, IsFound};
ghost use Rattle.life_ash.specs.Allowed.{AreAllowedBefore};
ghost use Rattle.life_apart.specs.Sets.{IsCourseBy, sets_of};
ghost use Rattle.life_ash.specs.Parts.{IsPlaced, ash_age_limit};

use crate::found::Found;
use crate::guess::guessed_parts;
use crate::known::Known;
use crate::limit::{few_until, first_past_of_ash};
use life_apart::Trail;
use life_orbit::Orbit;
use life_plane::{AGE_LIMIT, Observer, Plane};
use life_strays::Pace;
use std::alloc::{AllocError, Global};

/// Parts of which a plane's cells are ash, if a look at this age is due and finds them.
pub fn parts_if_due<P: Plane>(
    alloc: Global,
    plane: &P,
    met: &mut Known,
    pace: &mut Pace,
    age: u32,
) -> Result<Option<Vec<Orbit>>, AllocError>
    requires young { P.steps_made plane.now ≤ ash_age_limit }
    ensures same { met.new ≡ met.old }
    ensures ash { IfOk result (λ found. IfSome found (λ parts.
        IsAsh met.old.rule met.old.bound (P.members plane.now) (sets_of parts.items))) }
    ensures rule { IfOk result
        (λ found. IfSome found (λ parts. All (IsCourseBy met.old.rule) parts.items)) }
    ensures placed { IfOk result (λ found. IfSome found (λ parts. All IsPlaced parts.items)) }
    ensures courses { IfOk result (λ found. IfSome found (λ parts. All IsCourse parts.items)) }
{
    if !pace.is_due(age) {
        return Ok(None);
    }
    guessed_parts(alloc, plane, met, pace.looks())
}

/// The finding about the generation of this age, which a plane is at, if a look at it is due: ash, if no generation up to the
/// last is past the limit, or else the first generation that is.
pub fn found_if_due<P: Plane>(
    alloc: Global,
    plane: &P,
    met: &mut Known,
    pace: &mut Pace,
    limit: Option<u32>,
    age: u32,
    last: u32,
) -> Result<Option<Found>, AllocError>
    requires aged { P.steps_made plane.now ≡ age }
    requires young { age ≤ ash_age_limit }
    requires within { age ≤ last }
    requires last { last ≤ AGE_LIMIT }
    ensures same { met.new ≡ met.old }
    ensures found { IfOk result (λ some. IfSome some (λ found. (G : Generation) (from end : ℕ) →
        P.members plane.now ≡ generation met.old.rule G age →
        AreAllowedBefore met.old.rule G limit age → from ≤ age → age < end →
        IsFound met.old.rule met.old.bound G limit from end last found)) }
    ensures some { IfOk result (λ some. IfSome some (λ found. IfNothing found ⊥)) }
{
    let rule = met.rule();
    let Some(parts) = parts_if_due(alloc, plane, met, pace, age)? else {
        return Ok(None);
    };
    Ok(Some(
        match first_past_of_ash(plane, &parts, &rule, limit, last - age)? {
            Some(n) => Found::Large {
                generation: age + n,
            },
            None => Found::Parts { parts, age },
        },
    ))
}

/// Walks on to the age `end`, and checks now and then whether the plane's cells are ash. The generation at the end itself is
/// not checked. No generation that the walk comes to may have more cells than the limit; if ash is found, none up to the last
/// may. Some generations are kept on a trail. The rule and the bound are those of `met`. Each generation on the way is reported
/// to an observer.
///
/// If `Nothing` is found, the plane is as old as the end. The walk may go on from there, with a greater end and the same plane,
/// `met`, pace, trail, limit and last. A plane's age may be the end already. The end is at most 400,000 and at most one more
/// than the last.
pub fn walk_on<P: Plane, W: Observer>(
    alloc: Global,
    observer: &W,
    plane: &mut P,
    met: &mut Known,
    pace: &mut Pace,
    trail: &mut Trail,
    limit: Option<u32>,
    end: u32,
    last: u32,
) -> Result<Found, AllocError>
    requires start { P.steps_made plane.old ≤ end }
    requires end { end ≤ last + 1 × end ≤ ash_age_limit }
    requires last { last ≤ AGE_LIMIT }
    ensures same { met.new ≡ met.old }
    ensures reached { (G : Generation) →
        P.members plane.old ≡ generation met.old.rule G (P.steps_made plane.old) →
        P.members plane.new ≡ generation met.old.rule G (P.steps_made plane.new) }
    ensures trail { (G : Generation) →
        P.members plane.old ≡ generation met.old.rule G (P.steps_made plane.old) →
        All (IsMomentOf met.old.rule G) trail.old → All (IsMomentOf met.old.rule G) trail.new }
    ensures ended { IfOk result (HasEnded end (P.steps_made plane.new)) }
    ensures found { IfOk result (λ found. (G : Generation) →
        P.members plane.old ≡ generation met.old.rule G (P.steps_made plane.old) →
        AreAllowedBefore met.old.rule G limit (P.steps_made plane.old) →
        IsFound met.old.rule met.old.bound G limit (P.steps_made plane.old) end last found) }
{
    let rule = met.rule();
    let mut known = 0;
    for age in plane.age()..end {
        observer.reached(age);
        let Some(until) = few_until(limit, plane, age, known, pace) else {
            return Ok(Found::Large { generation: age });
        };
        known = until;
        if let Some(found) = found_if_due(alloc, plane, met, pace, limit, age, last)? {
            return Ok(found);
        }
        trail.note(plane)?;
        plane.step(&rule)?;
    }
    Ok(Found::Nothing)
}
