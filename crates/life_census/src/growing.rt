//! Deciding whether a pattern grows within a bound.
ghost use Rattle.std.specs.Prelude.{◌≡◌, ℕ, ◌*◌, ◌+◌, ◌≤◌, All, IfNone, IfOk, IfSome, List};
ghost use Rattle.life_model.specs.Evolution.{generation};
ghost use Rattle.life_model.specs.Generation.{Generation};
ghost use Rattle.life_model.specs.Generation as generations;
ghost use Rattle.life_cells.specs.Limits.{IsWithin};
ghost use Rattle.life_ash.specs.Parts.{ash_age_limit};
ghost use Rattle.life_answer.specs.Growing.{allowed_bound};
ghost use Rattle.life_growth.specs.Growth.{IsGrowth};
ghost use Rattle.life_census.specs.Grown.{IsGrownWithin, IsSeenWithin, NeverGrows, NeverGrowsThen};

use crate::allowed::allowed_bound;
use crate::island::never_grows;
use crate::trend::{LEAST_TREND, rises_steadily};
use life_cells::{CellList, Rule};
use life_growing::{Growth, growth_of};
use life_orbit::BOUND_LIMIT;
use life_plane::Plane;
use life_things::WAY_LIMIT;
use std::alloc::{AllocError, Global};

/// The number of generations of the first film. Each further film has twice as many as the one before it.
const FIRST_LENGTH: u32 = 32;

/// Below this horizon short films are looked at in any case.
const SHORT: u32 = 64;

/// A plane at a generation of a pattern.
fn plane_at<P: Plane>(
    alloc: Global,
    rule: &Rule,
    cells: &CellList,
    age: u32,
) -> Result<P, AllocError>
    requires age { age ≤ BOUND_LIMIT }
    requires fits { All (IsWithin 0) (generations.cells cells.now) }
    ensures cells { IfOk result (λ plane. P.members plane ≡ generation rule.now cells.now age) }
    ensures age { IfOk result (λ plane. P.steps_made plane ≡ age) }
{
    let mut plane = P::from_cells(alloc, cells)?;
    'steps: for _ in 0..age {
        plane.step(rule)?;
    }
    Ok(plane)
}

/// The growth of a plane's cells that a short film shows, if one does. Each film shows growth within as many generations as it
/// has, no more than the horizon.
fn growth_soon<P: Plane>(
    alloc: Global,
    plane: &P,
    rule: &Rule,
    horizon: u32,
) -> Result<Option<Growth>, AllocError>
    requires horizon { horizon ≤ WAY_LIMIT }
    requires age { P.steps_made plane.now + 4 * horizon ≤ ash_age_limit }
    ensures { IfOk result (λ found. IfSome found (IsSeenWithin rule.now horizon (P.members plane.now))) }
{
    if horizon == 0 {
        return Ok(None);
    }
    let mut length = FIRST_LENGTH;
    'films: while length < horizon {
        if let Some(growth) = growth_of(alloc, plane, rule, length, length)? {
            return Ok(Some(growth));
        }
        length *= 2;
    }
    growth_of(alloc, plane, rule, horizon, horizon)
}

/// The growth of a plane's cells that a short film shows, if one does. Films are looked at only if the population seems to rise
/// steadily over `length` generations or the horizon is short, as they are expensive where nothing grows.
fn growth_if_rising<P: Plane>(
    alloc: Global,
    plane: &P,
    rule: &Rule,
    length: u32,
    horizon: u32,
) -> Result<Option<Growth>, AllocError>
    requires length { length ≤ BOUND_LIMIT }
    requires horizon { horizon ≤ WAY_LIMIT }
    requires age { P.steps_made plane.now + 4 * horizon ≤ ash_age_limit }
    ensures { IfOk result (λ found. IfSome found (IsSeenWithin rule.now horizon (P.members plane.now))) }
{
    if horizon >= SHORT && !rises_steadily(alloc, plane, rule, length)? {
        return Ok(None);
    }
    growth_soon(alloc, plane, rule, horizon)
}

/// The growth that short films show for a generation on the way to some bound, if one does. It is that of the pattern within
/// each bound, 1 to 100,000, that is no less than the age of this generation. `None` if some generation up to four times that
/// age has more cells than the limit. The horizon is 1 to 10,000.
pub fn growth_on_the_way<P: Plane>(
    alloc: Global,
    plane: &P,
    rule: &Rule,
    cells: &CellList,
    limit: Option<u32>,
    horizon: u32,
) -> Result<Option<Growth>, AllocError>
    requires age { 1 ≤ P.steps_made plane.now × P.steps_made plane.now ≤ BOUND_LIMIT }
    requires horizon { horizon ≤ WAY_LIMIT }
    requires fits { All (IsWithin 0) (generations.cells cells.now) }
    requires cells { P.members plane.now ≡ generation rule.now cells.now (P.steps_made plane.now) }
    ensures { IfOk result (λ found. IfSome found (λ growth. (b : ℕ) → P.steps_made plane.now ≤ b →
        IsGrownWithin rule.now cells.now (allowed_bound limit rule.now cells.now b) horizon growth)) }
{
    let age = plane.age();
    let length = (age / 8).max(LEAST_TREND);
    let Some(growth) = growth_if_rising(alloc, plane, rule, length, horizon.min(age))? else {
        return Ok(None);
    };
    if allowed_bound::<P>(alloc, rule, cells, age, limit)? < age {
        return Ok(None);
    }
    Ok(Some(growth))
}

/// The growth of a plane's cells within the horizon, if there is one. Short films are looked at first. The last one, which has
/// twice as many generations as the horizon, decides it.
fn growth_up_to<P: Plane>(
    alloc: Global,
    plane: &P,
    rule: &Rule,
    horizon: u32,
) -> Result<Option<Growth>, AllocError>
    requires horizon { 1 ≤ horizon × horizon ≤ WAY_LIMIT }
    requires age { P.steps_made plane.now + 4 * horizon ≤ ash_age_limit }
    ensures some { IfOk result (λ found. IfSome found (IsSeenWithin rule.now horizon (P.members plane.now))) }
    ensures none { IfOk result (λ found. IfNone found (NeverGrows rule.now horizon (P.members plane.now))) }
{
    let length = horizon.max(LEAST_TREND);
    if let Some(growth) = growth_if_rising(alloc, plane, rule, length, horizon)? {
        return Ok(Some(growth));
    }
    growth_of(alloc, plane, rule, 2 * horizon, horizon)
}

/// The growth within the horizon and within an age that the generation of that age shows, if there is one.
fn growth_at<P: Plane>(
    alloc: Global,
    rule: &Rule,
    cells: &CellList,
    age: u32,
    horizon: u32,
) -> Result<Option<Growth>, AllocError>
    requires age { 1 ≤ age × age ≤ BOUND_LIMIT }
    requires horizon { 1 ≤ horizon × horizon ≤ WAY_LIMIT }
    requires fits { All (IsWithin 0) (generations.cells cells.now) }
    ensures some { IfOk result (λ found. IfSome found
        (IsGrownWithin rule.now cells.now age horizon)) }
    ensures none { IfOk result (λ found. IfNone found (NeverGrowsThen rule.now cells.now age horizon)) }
{
    let plane: P = plane_at(alloc, rule, cells, age)?;
    growth_up_to(alloc, &plane, rule, horizon.min(age))
}

/// The growth of a pattern, searched for within the horizon in the generation of the greatest bound up to which the pattern is
/// small enough: no generation up to four times that bound may have more cells than the limit. The bound is 1 to 100,000
/// generations, and the horizon 1 to 10,000, but no more than that bound counts.
pub fn growth_within<P: Plane>(
    alloc: Global,
    rule: &Rule,
    cells: &CellList,
    bound: u32,
    limit: Option<u32>,
    horizon: u32,
) -> Result<Option<Growth>, AllocError>
    requires bound { 1 ≤ bound × bound ≤ BOUND_LIMIT }
    requires horizon { 1 ≤ horizon × horizon ≤ WAY_LIMIT }
    requires fits { All (IsWithin 0) (generations.cells cells.now) }
    ensures some { IfOk result (λ found. IfSome found
        (IsGrownWithin rule.now cells.now (allowed_bound limit rule.now cells.now bound) horizon)) }
    ensures none { IfOk result (λ found. IfNone found
        (NeverGrowsThen rule.now cells.now (allowed_bound limit rule.now cells.now bound) horizon)) }
{
    let allowed = allowed_bound::<P>(alloc, rule, cells, bound, limit)?;
    if allowed == 0 {
        return Ok(None);
    }
    let plane: P = plane_at(alloc, rule, cells, allowed)?;
    let least = horizon.min(allowed);
    if never_grows(alloc, &plane, rule, least)? {
        return Ok(None);
    }
    growth_up_to(alloc, &plane, rule, least)
}

/// The growth that `growth_within` finds, more quickly if there is none: the generation of the bound is looked at first, and
/// the sizes of later ones only if it grows. A pattern that grows earlier grows there too.
pub fn growth_at_bound<P: Plane>(
    alloc: Global,
    rule: &Rule,
    cells: &CellList,
    bound: u32,
    limit: Option<u32>,
    horizon: u32,
) -> Result<Option<Growth>, AllocError>
    requires bound { 1 ≤ bound × bound ≤ BOUND_LIMIT }
    requires horizon { 1 ≤ horizon × horizon ≤ WAY_LIMIT }
    requires fits { All (IsWithin 0) (generations.cells cells.now) }
    ensures some { IfOk result (λ found. IfSome found
        (IsGrownWithin rule.now cells.now (allowed_bound limit rule.now cells.now bound) horizon)) }
    ensures none { IfOk result (λ found. IfNone found
        (NeverGrowsThen rule.now cells.now (allowed_bound limit rule.now cells.now bound) horizon)) }
{
    let Some(growth) = growth_at::<P>(alloc, rule, cells, bound, horizon)? else {
        return Ok(None);
    };
    if allowed_bound::<P>(alloc, rule, cells, bound, limit)? < bound {
        return growth_within::<P>(alloc, rule, cells, bound, limit, horizon);
    }
    Ok(Some(growth))
}
