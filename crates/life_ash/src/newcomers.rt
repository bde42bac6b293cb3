//! Sets that are by themselves long after the bound, and were not there before: if there is one, there is no ash.
ghost use Rattle.std.specs.Prelude.{◌≡◌, ℕ, ◌*◌, ◌+◌, ◌<◌, ◌≤◌, All, IfOk, IfSome, IsTrue, List, length};
ghost use Rattle.std.specs.List.{list_all};
ghost use Rattle.life_model.specs.Evolution.{generation};
ghost use Rattle.life_model.specs.Generation.{Generation};
ghost use Rattle.life_model.specs.Generation as generations;
ghost use Rattle.life_cells.specs.Limits.{IsWithin};
ghost use Rattle.life_objects.specs.Ash.{IsAsh};
ghost use Rattle.life_objects.specs.Union.{IsSubsetOf};
ghost use Rattle.life_classes.specs.Nearness.{reaches};
ghost use Rattle.life_orbit.specs.Kept.{orbit_age_limit};
ghost use Rattle.life_ash.specs.Newcomers.{IsWholeIn};
ghost use Rattle.life_ash.specs.Parts.{ash_age_limit};

use crate::before::set_before;
use crate::known::Known;
use crate::parts::part_of;
use life_apart::{end_alone, room};
use life_cells::CellList;
use life_classes::{classes_of, reaches};
use life_plane::Plane;
use std::alloc::{AllocError, Global};

/// The numbers of generations for which cells are followed to see which belong together: first none, then as many as most
/// spaceships of several pieces need.
const FOLLOWED: [u32; 2] = [0, 64];

/// The number of generations within which a set must recur.
const TRIED: u32 = 64;

/// The greatest number of cells that a set may have.
const LARGEST: usize = 512;

/// The number of sets that are looked at more closely.
const MANY: usize = 32;

/// The number of these that are followed to see whether they stay alone.
const TRIES: usize = 4;

/// True if each cell of a set is one of these cells.
fn is_within(set: &CellList, cells: &CellList) -> bool
    ensures { result ≡ list_all (reaches 0 cells.now) (generations.cells set.now) }
{
    set.as_slice()
        .iter()
        .copied()
        .all(|cell| reaches(0, cells, cell))
}

/// True if a set recurs and the set that it was `known.bound()` generations ago is not among these cells.
fn is_new<P: Plane>(
    alloc: Global,
    known: &mut Known,
    set: &CellList,
    now: &CellList,
) -> Result<bool, AllocError>
    requires within { All (IsWithin orbit_age_limit) (generations.cells set.now) }
    ensures same { known.new ≡ known.old }
{
    if set.len() > LARGEST {
        return Ok(false);
    }
    let bound = known.bound();
    let Some(orbit) = known.orbit_of::<P>(alloc, set, bound.min(TRIED))? else {
        return Ok(false);
    };
    match set_before(alloc, &orbit, bound)? {
        Some(before) => Ok(!is_within(&before, now)),
        None => Ok(true),
    }
}

/// A copy of a set.
fn copied(alloc: Global, set: &CellList) -> Result<CellList, AllocError>
    ensures { IfOk result (λ list. list ≡ set.now) }
{
    Ok(CellList::from_ordered(set.as_slice().to_vec(alloc)?))
}

/// Sets of a plane's cells that no split for the bound tears and that are new compared with these cells.
fn newcomers<P: Plane>(
    alloc: Global,
    plane: &P,
    known: &mut Known,
    now: &CellList,
    followed: u32,
) -> Result<Vec<CellList>, AllocError>
    requires young { P.steps_made plane.now ≤ ash_age_limit }
    ensures same { known.new ≡ known.old }
    ensures whole { IfOk result (λ sets.
        All (IsWholeIn known.old.rule known.old.bound (P.members plane.now)) sets.items) }
{
    let rule = known.rule();
    let short = known.bound().min(followed);
    // (at its age no cell is too far out)
    let _age = plane.age();
    let all = classes_of(alloc, plane, &rule, short)?;
    let mut sets = Vec::new(alloc);
    for class in all.as_slice() {
        if sets.len() < MANY && is_new::<P>(alloc, known, &class.first, now)? {
            sets.push(copied(alloc, &class.first)?)?;
        }
    }
    Ok(sets)
}

/// The place of the set that is furthest from all other cells.
fn loneliest(sets: &[CellList], cells: &CellList) -> usize
    requires { 0 < length sets.now }
    ensures { result < length sets.now }
{
    let mut best = 0;
    let mut most = 0;
    for n in 0..sets.len() {
        let far = room(&sets[n], cells);
        if far > most {
            most = far;
            best = n;
        }
    }
    best
}

/// True if a set of a plane's cells, which no split for the bound tears, shows that the generation of one bound before is no
/// ash: the set stays alone, and the set that must have become it was not there.
fn tells<P: Plane>(
    alloc: Global,
    plane: &P,
    known: &mut Known,
    now: &CellList,
    set: &CellList,
) -> Result<bool, AllocError>
    requires age { P.steps_made plane.now ≡ 2 * known.old.bound }
    requires now { P.members plane.now ≡ generation known.old.rule now.now known.old.bound }
    requires placed { All (IsWithin ash_age_limit) (generations.cells now.now) }
    requires whole { IsWholeIn known.old.rule known.old.bound (P.members plane.now) set.now }
    ensures same { known.new ≡ known.old }
    ensures none { IfOk result (λ is. IsTrue is → (parts : List Generation) →
        IsAsh known.old.rule known.old.bound now.now parts → ⊥) }
{
    let rule = known.rule();
    let bound = known.bound();
    // (at its age no cell is too far out)
    let _age = plane.age();
    let Some(end) = end_alone(alloc, plane, &rule, set, bound)? else {
        return Ok(false);
    };
    if end.is_empty() {
        return Ok(false);
    }
    match part_of::<P>(alloc, known, &end, 2 * bound)? {
        Some(part) => Ok(!is_within(part.set(), now)),
        None => Ok(true),
    }
}

/// True if one of some sets of a plane's cells shows this. The loneliest are tried first, and only a few.
fn some_tells<P: Plane>(
    alloc: Global,
    plane: &P,
    known: &mut Known,
    now: &CellList,
    sets: Vec<CellList>,
) -> Result<bool, AllocError>
    requires age { P.steps_made plane.now ≡ 2 * known.old.bound }
    requires now { P.members plane.now ≡ generation known.old.rule now.now known.old.bound }
    requires placed { All (IsWithin ash_age_limit) (generations.cells now.now) }
    requires whole { All (IsWholeIn known.old.rule known.old.bound (P.members plane.now)) sets.items }
    ensures same { known.new ≡ known.old }
    ensures none { IfOk result (λ is. IsTrue is → (parts : List Generation) →
        IsAsh known.old.rule known.old.bound now.now parts → ⊥) }
{
    let cells = plane.cells()?;
    let mut sets = sets;
    for _ in 0..TRIES {
        if sets.len() == 0 {
            return Ok(false);
        }
        let place = loneliest(sets.as_slice(), &cells);
        let set = sets.remove(place);
        if tells(alloc, plane, known, now, &set)? {
            return Ok(true);
        }
    }
    Ok(false)
}

/// True if a plane's cells, which are as old as the bound, are seen to be no ash by a set that is alone once they are twice as
/// old. A negative answer means nothing.
pub fn is_no_ash<P: Plane>(alloc: Global, plane: &P, known: &mut Known) -> Result<bool, AllocError>
    requires age { P.steps_made plane.now ≡ known.old.bound }
    ensures same { known.new ≡ known.old }
    ensures none { IfOk result (λ is. IsTrue is → (parts : List Generation) →
        IsAsh known.old.rule known.old.bound (P.members plane.now) parts → ⊥) }
{
    let rule = known.rule();
    let bound = known.bound();
    let now = plane.cells()?;
    // (at its age no cell is too far out)
    let _age = plane.age();
    let mut later = plane.copy()?;
    for _ in 0..bound {
        later.step(&rule)?;
    }
    for followed in &FOLLOWED {
        let sets = newcomers(alloc, &later, known, &now, *followed)?;
        if some_tells(alloc, &later, known, &now, sets)? {
            return Ok(true);
        }
    }
    Ok(false)
}
