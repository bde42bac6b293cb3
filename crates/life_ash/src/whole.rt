//! Deciding whether sets that recur are objects.
ghost use Rattle.std.specs.Prelude.{◌≡◌, ◌≤◌, ◌<◌, ◌↔◌, All, IfOk, IsTrue};
ghost use Rattle.life_model.specs.Generation as generations;
ghost use Rattle.life_cells.specs.Limits.{IsWithin};
ghost use Rattle.life_objects.specs.Ash.{IsObject};
ghost use Rattle.life_objects.specs.Piece.{IsOnePiece, IsUndivided};
ghost use Rattle.life_apart.specs.Sets.{sets_of};
ghost use Rattle.life_ash.specs.Parts.{IsFit};

use life_cells::{CellList, Rule};
use life_orbit::{BOUND_LIMIT, Orbit};
use life_plane::Plane;
use std::alloc::{AllocError, Global};

/// True if the cells don't split into two sets that both live on. Usually the cells are near each other, which is seen without
/// a plane.
fn is_undivided<P: Plane>(
    alloc: Global,
    cells: &CellList,
    rule: &Rule,
    bound: u32,
) -> Result<bool, AllocError>
    requires bound { bound ≤ BOUND_LIMIT }
    requires within { All (IsWithin 500000) (generations.cells cells.now) }
    ensures { IfOk result (λ is. IsTrue is ↔ IsUndivided rule.now bound cells.now) }
{
    if life_classes::hold_together(alloc, cells)? {
        return Ok(true);
    }
    let plane = P::at_age(alloc, cells, 500_000)?;
    life_classes::is_undivided(alloc, plane, rule, bound)
}

/// True if no generation of a set that recurs is divided. If a generation is undivided within some generations, the one before
/// it is undivided within one more, so a few phases usually decide for all. The last of as many phases as possible is looked
/// at, and if that doesn't decide, the last of half as many.
fn is_one_piece<P: Plane>(
    alloc: Global,
    orbit: &Orbit,
    rule: &Rule,
    bound: u32,
) -> Result<bool, AllocError>
    requires bound { bound ≤ BOUND_LIMIT }
    requires fit { IsFit rule.now bound orbit.now }
    ensures { IfOk result (λ is. IsTrue is ↔ IsOnePiece rule.now bound orbit.now.set) }
{
    let mut end = orbit.period();
    let mut step = end;
    while 0 < end {
        step = step.min(end);
        let phase = orbit.phase(end - 1);
        if is_undivided::<P>(alloc, phase, rule, bound - (step - 1))? {
            end -= step;
        } else if step == 1 {
            return Ok(false);
        } else {
            step /= 2;
        }
    }
    Ok(true)
}

/// True if a set that recurs is an object.
fn is_object<P: Plane>(
    alloc: Global,
    orbit: &Orbit,
    rule: &Rule,
    bound: u32,
) -> Result<bool, AllocError>
    requires bound { bound ≤ BOUND_LIMIT }
    requires fit { IsFit rule.now bound orbit.now }
    ensures { IfOk result (λ is. IsTrue is ↔ IsObject rule.now bound orbit.now.set) }
{
    Ok(!orbit.set().is_empty() && is_one_piece::<P>(alloc, orbit, rule, bound)?)
}

/// True if sets that recur are objects, all of them.
pub fn are_objects<P: Plane>(
    alloc: Global,
    orbits: &[Orbit],
    rule: &Rule,
    bound: u32,
) -> Result<bool, AllocError>
    requires bound { bound ≤ BOUND_LIMIT }
    requires fit { All (IsFit rule.now bound) orbits.now }
    ensures { IfOk result (λ are. IsTrue are ↔ All (IsObject rule.now bound) (sets_of orbits.now)) }
{
    for orbit in orbits {
        if !is_object::<P>(alloc, orbit, rule, bound)? {
            return Ok(false);
        }
    }
    Ok(true)
}
