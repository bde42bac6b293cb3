//! The orbits of the independent parts of a set that recurs.
ghost use Rattle.std.specs.Prelude.{◌≡◌, ℕ, List, All, IfNone, IfOk, IfSome, map};
ghost use Rattle.life_model.specs.Generation.{Generation};
ghost use Rattle.life_model.specs.Generation as generations;
ghost use Rattle.life_cells.specs.Limits.{IsWithin};
ghost use Rattle.life_objects.specs.Ash.{RecursWithin};
ghost use Rattle.life_orbit.specs.Kept.{orbit_age_limit};
ghost use Rattle.life_parts.specs.Parts.Parts.{AreIndependentParts};
ghost use Rattle.life_islands.specs.Split.Courses.{IsCourseWithin};

use crate::split::splitting::independent_parts;
use life_cells::CellList;
use life_orbit::{BOUND_LIMIT, Orbit};
use life_plane::Plane;
use std::alloc::{AllocError, Global};

/// The orbit of a part of an orbit's set. The orbit of a part that is the whole set is copied and not computed again.
fn part_orbit<P: Plane>(
    alloc: Global,
    orbit: &Orbit,
    part: &CellList,
) -> Result<Option<Orbit>, AllocError>
    requires within { All (IsWithin orbit_age_limit) (generations.cells part.now) }
    ensures set { IfOk result (λ found. IfSome found (λ one. one.set ≡ part.now)) }
    ensures course { IfOk result
        (λ found. IfSome found (IsCourseWithin orbit.now.rule BOUND_LIMIT)) }
    ensures none { IfOk result
        (λ found. IfNone found (RecursWithin orbit.now.rule BOUND_LIMIT part.now → ⊥)) }
{
    let copy = orbit.moved_to(alloc, part)?;
    if let Some(copy) = copy {
        prove!(orbit.period() <= BOUND_LIMIT);
        return Ok(Some(copy));
    }
    let rule = orbit.rule();
    Orbit::of::<P>(alloc, &rule, part, BOUND_LIMIT)
}

/// The orbits of parts of an orbit's set, in their order, if each of them recurs within 100,000 generations.
fn orbits_of<P: Plane>(
    alloc: Global,
    orbit: &Orbit,
    parts: &[CellList],
) -> Result<Option<Vec<Orbit>>, AllocError>
    requires within { All (λ part. All (IsWithin orbit_age_limit) (generations.cells part)) parts.now }
    ensures sets { IfOk result (λ found. IfSome found
        (λ orbits. map (λ one. one.set) orbits.items ≡ parts.now)) }
    ensures courses { IfOk result (λ found. IfSome found
        (λ orbits. All (IsCourseWithin orbit.now.rule BOUND_LIMIT) orbits.items)) }
    ensures none { IfOk result (λ found. IfNone found
        (All (RecursWithin orbit.now.rule BOUND_LIMIT) parts.now → ⊥)) }
{
    let mut orbits = Vec::new(alloc);
    for part in parts {
        match part_orbit::<P>(alloc, orbit, part)? {
            Some(found) => orbits.push(found)?,
            None => return Ok(None),
        }
    }
    Ok(Some(orbits))
}

/// The independent parts of the set of an orbit, each once, in no promised order, as orbits with their own least period and
/// displacement. `None` exactly if one of them has a period of more than 100,000 generations, as parts that change places may
/// have.
pub fn part_orbits<P: Plane>(alloc: Global, orbit: &Orbit) -> Result<Option<Vec<Orbit>>, AllocError>
    requires within { All (IsWithin orbit_age_limit) (generations.cells orbit.now.set) }
    ensures parts { IfOk result (λ found. IfSome found (λ parts.
        AreIndependentParts orbit.now.rule orbit.now.set (map (λ part. part.set) parts.items))) }
    ensures courses { IfOk result (λ found. IfSome found
        (λ parts. All (IsCourseWithin orbit.now.rule BOUND_LIMIT) parts.items)) }
    ensures within { IfOk result (λ found. IfSome found (λ parts. (age : ℕ) →
        All (IsWithin age) (generations.cells orbit.now.set) →
        All (λ part. All (IsWithin age) (generations.cells part.set)) parts.items)) }
    ensures none { IfOk result (λ found. IfNone found ((parts : List Generation) →
        AreIndependentParts orbit.now.rule orbit.now.set parts →
        All (RecursWithin orbit.now.rule BOUND_LIMIT) parts → ⊥)) }
{
    let parts = independent_parts(alloc, orbit)?;
    orbits_of::<P>(alloc, orbit, parts.as_slice())
}
