//! Generations that exceed a limit on the number of cells.
ghost use Rattle.std.specs.Prelude.{◌≡◌, ◌+◌, ◌<◌, ◌≤◌, ◌↔◌, ℕ, All, IfNone, IfOk, IfSome, IsTrue};
ghost use Rattle.life_model.specs.Evolution.{generation};
ghost use Rattle.life_model.specs.Generation.{Generation, size};
ghost use Rattle.life_model.specs.Rule.{Rule as ModelRule};
ghost use Rattle.life_answer.specs.Limited.{IsAllowed, first_past};
ghost use Rattle.life_objects.specs.Ash.{IsAsh};
ghost use Rattle.life_ash.specs.Allowed.{AreAllowedBefore};
ghost use Rattle.life_apart.specs.Sets.{IsCourseBy, sets_of};
ghost use Rattle.life_ash.specs.Parts.{ash_age_limit};

use crate::sizes::are_few;
use life_cells::Rule;
use life_orbit::Orbit;
use life_plane::{AGE_LIMIT, Plane};
use life_strays::{Pace, STRIDE};
use std::alloc::AllocError;

/// True if this population is allowed.
pub fn is_allowed(limit: Option<u32>, population: u64) -> bool
    ensures { IsTrue result ↔ IsAllowed limit population }
{
    match limit {
        Some(most) => population <= u64::from(most),
        None => true,
    }
}

/// The number of generations, from a set of `population` cells on, of which certainly none has more cells than are allowed: 0
/// if the set itself has more, and at most 4. Three generations later there are at most 49 times as many cells, as none is
/// further than three cells from one of these.
fn few_for(limit: Option<u32>, population: u64) -> u32
    ensures few { (R : ModelRule) (G : Generation) → size G ≡ population →
        AreAllowedBefore R G limit result }
    ensures none { result ≡ 0 → IsAllowed limit population → ⊥ }
    ensures short { result ≤ 4 }
{
    let Some(most) = limit else {
        return 4;
    };
    if population > u64::from(most) {
        return 0;
    }
    if population * 49 <= u64::from(most) {
        return 4;
    }
    1
}

/// An age before which certainly no generation has more cells than are allowed: later than that of the plane, or `None` if its
/// own cells are more. It is known already that none before the age `known` has more. The cells are counted only once that age
/// is reached, and at least at each age at which the pace needs it.
pub fn few_until<P: Plane>(
    limit: Option<u32>,
    plane: &P,
    age: u32,
    known: u32,
    pace: &mut Pace,
) -> Option<u32>
    requires { age ≤ ash_age_limit }
    ensures few { IfSome result
        (λ until. (R : ModelRule) (G : Generation) → P.members plane.now ≡ generation R G age →
        AreAllowedBefore R G limit age → AreAllowedBefore R G limit known →
        AreAllowedBefore R G limit until) }
    ensures later { IfSome result (λ until. age < until) }
    ensures none { IfNone result (IsAllowed limit (size (P.members plane.now)) → ⊥) }
{
    if age < known {
        return Some(known);
    }
    let population = plane.population();
    let more = few_for(limit, population);
    if more == 0 {
        return None;
    }
    pace.count(age, population);
    Some(age + more.min(STRIDE - age % STRIDE))
}

/// The first generation past the limit, from a plane's own cells, which are generation 0, to the last. No generation after it
/// is looked at, and none if there is no limit.
pub fn first_past<P: Plane>(
    plane: &P,
    rule: &Rule,
    limit: Option<u32>,
    last: u32,
) -> Result<Option<u32>, AllocError>
    requires young { P.steps_made plane.now + last ≤ AGE_LIMIT }
    ensures { IfOk result (λ found. found ≡ first_past limit rule.now (P.members plane.now) last) }
{
    if limit.is_none() {
        return Ok(None);
    }
    let mut later = plane.copy()?;
    for n in 0..last {
        if !is_allowed(limit, later.population()) {
            return Ok(Some(n));
        }
        later.step(rule)?;
    }
    if !is_allowed(limit, later.population()) {
        return Ok(Some(last));
    }
    Ok(None)
}

/// The first generation of ash past the limit, from a plane's own cells, which are generation 0, to the last. The parts usually
/// decide it without a walk.
pub fn first_past_of_ash<P: Plane>(
    plane: &P,
    parts: &[Orbit],
    rule: &Rule,
    limit: Option<u32>,
    last: u32,
) -> Result<Option<u32>, AllocError>
    requires ash { (b : ℕ) × IsAsh rule.now b (P.members plane.now) (sets_of parts.now) }
    requires of { All (IsCourseBy rule.now) parts.now }
    requires young { P.steps_made plane.now + last ≤ AGE_LIMIT }
    ensures { IfOk result (λ found. found ≡ first_past limit rule.now (P.members plane.now) last) }
{
    let Some(most) = limit else {
        return Ok(None);
    };
    if are_few(parts, most) {
        return Ok(None);
    }
    first_past(plane, rule, limit, last)
}
