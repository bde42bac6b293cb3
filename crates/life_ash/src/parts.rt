//! The only possible parts of ash, if there is ash at all.
ghost use Rattle.std.specs.Prelude.{◌≡◌, ◌≤◌, All, IfNone, IfOk, IfSome, List};
ghost use Rattle.life_model.specs.Evolution.{generation};
ghost use Rattle.life_model.specs.Generation.{Generation};
ghost use Rattle.life_model.specs.Generation as generations;
ghost use Rattle.std.specs.List.{Contains};
ghost use Rattle.life_cells.specs.Limits.{IsWithin};
ghost use Rattle.life_objects.specs.Ash.{IsAsh};
ghost use Rattle.life_orbit.specs.Kept.{orbit_age_limit};
ghost use Rattle.life_apart.specs.Sets.{sets_of};
ghost use Rattle.life_ash.specs.Parts.{AreEndsOfCourses, IsEnd, IsFit, IsPlaced, ash_age_limit};

use crate::again::comes_again;
use crate::before::set_before;
use crate::known::Known;
use crate::living::living;
use life_cells::CellList;
use life_classes::classes;
use life_orbit::Orbit;
use life_plane::Plane;
use std::alloc::{AllocError, Global};

/// The only set that can have become this one after `ago` generations and that recurs within the bound, if there is one.
pub fn part_of<P: Plane>(
    alloc: Global,
    known: &mut Known,
    last: &CellList,
    ago: u32,
) -> Result<Option<Orbit>, AllocError>
    requires ago { 1 ≤ ago × ago ≤ ash_age_limit }
    requires within { All (IsWithin orbit_age_limit) (generations.cells last.now) }
    ensures same { known.new ≡ known.old }
    ensures fit { IfOk result
        (λ found. IfSome found (λ orbit. IsFit known.old.rule known.old.bound orbit)) }
    ensures set { IfOk result (λ found. IfSome found (λ orbit. (P : Generation) →
        IsEnd known.old.rule known.old.bound ago last.now P → orbit.set ≡ P)) }
    ensures none { IfOk result (λ found. IfNone found ((P : Generation) →
        IsEnd known.old.rule known.old.bound ago last.now P → ⊥)) }
{
    let bound = known.bound();
    let Some(orbit) = known.orbit_of::<P>(alloc, last, bound)? else {
        return Ok(None);
    };
    let Some(set) = set_before(alloc, &orbit, ago)? else {
        return Ok(None);
    };
    known.orbit_of::<P>(alloc, &set, bound)
}

/// The only sets that can have become these. For a set that does not recur no generations are kept.
fn parts_of<P: Plane>(
    alloc: Global,
    known: &mut Known,
    lasts: &[CellList],
    ago: u32,
) -> Result<Option<Vec<Orbit>>, AllocError>
    requires ago { 1 ≤ ago × ago ≤ ash_age_limit }
    requires within { All (λ G. All (IsWithin orbit_age_limit) (generations.cells G)) lasts.now }
    ensures same { known.new ≡ known.old }
    ensures fit { IfOk result
        (λ found. IfSome found
        (λ orbits. All (IsFit known.old.rule known.old.bound) orbits.items)) }
    ensures sets { IfOk result (λ found. IfSome found (λ orbits.
        AreEndsOfCourses known.old.rule known.old.bound ago lasts.now orbits.items)) }
    ensures none { IfOk result (λ found. IfNone found ((last : Generation) × Contains lasts.now last
        × ((P : Generation) → IsEnd known.old.rule known.old.bound ago last P → ⊥))) }
{
    let rule = known.rule();
    let bound = known.bound();
    let mut parts = Vec::new(alloc);
    for last in lasts {
        if !comes_again::<P>(alloc, last, &rule, bound)? {
            return Ok(None);
        }
        match part_of::<P>(alloc, known, last, ago)? {
            Some(part) => parts.push(part)?,
            None => return Ok(None),
        }
    }
    Ok(Some(parts))
}

/// The only parts of which the cells of a plane can be ash within the bound of `known`.
pub fn only_parts<P: Plane>(
    alloc: Global,
    plane: &P,
    known: &mut Known,
) -> Result<Option<Vec<Orbit>>, AllocError>
    requires young { P.steps_made plane.now ≤ ash_age_limit }
    ensures same { known.new ≡ known.old }
    ensures fit { IfOk result
        (λ found. IfSome found
        (λ orbits. All (IsFit known.old.rule known.old.bound) orbits.items)) }
    ensures only { IfOk result (λ found. IfSome found (λ orbits. (parts : List Generation) →
        IsAsh known.old.rule known.old.bound (P.members plane.now) parts →
        IsAsh known.old.rule known.old.bound (P.members plane.now) (sets_of orbits.items))) }
    ensures none { IfOk result (λ found. IfNone found ((parts : List Generation) →
        IsAsh known.old.rule known.old.bound (P.members plane.now) parts → ⊥)) }
{
    let rule = known.rule();
    let bound = known.bound();
    let copy = plane.copy()?;
    // (at its age no cell is too far out)
    let age = copy.age();
    let lasts = living(alloc, classes(alloc, copy, &rule, bound)?)?;
    parts_of::<P>(alloc, known, lasts.as_slice(), bound)
}

/// The sets of orbits.
fn sets(alloc: Global, orbits: &[Orbit]) -> Result<Vec<CellList>, AllocError>
    ensures { IfOk result (λ sets. sets.items ≡ sets_of orbits.now) }
{
    let mut sets = Vec::new(alloc);
    for orbit in orbits {
        let cells = orbit.set().as_slice().to_vec(alloc)?;
        sets.push(CellList::from_ordered(cells))?;
    }
    Ok(sets)
}

/// The only parts of which the cells of a plane can be ash within the bound of `known`, if they become ash of the parts `later`
/// after `ago` generations: the sets that these parts were before.
pub fn parts_before<P: Plane>(
    alloc: Global,
    plane: &P,
    known: &mut Known,
    later: &[Orbit],
    ago: u32,
) -> Result<Option<Vec<Orbit>>, AllocError>
    requires young { P.steps_made plane.now ≤ ash_age_limit }
    requires ago { 1 ≤ ago × ago ≤ ash_age_limit }
    requires placed { All IsPlaced later.now }
    requires ash { IsAsh known.old.rule known.old.bound
        (generation known.old.rule (P.members plane.now) ago) (sets_of later.now) }
    ensures same { known.new ≡ known.old }
    ensures fit { IfOk result
        (λ found. IfSome found
        (λ orbits. All (IsFit known.old.rule known.old.bound) orbits.items)) }
    ensures only { IfOk result (λ found. IfSome found (λ orbits. (parts : List Generation) →
        IsAsh known.old.rule known.old.bound (P.members plane.now) parts →
        IsAsh known.old.rule known.old.bound (P.members plane.now) (sets_of orbits.items))) }
    ensures none { IfOk result (λ found. IfNone found ((parts : List Generation) →
        IsAsh known.old.rule known.old.bound (P.members plane.now) parts → ⊥)) }
{
    // (at its age no cell is too far out)
    let _age = plane.age();
    let lasts = sets(alloc, later)?;
    parts_of::<P>(alloc, known, lasts.as_slice(), ago)
}
