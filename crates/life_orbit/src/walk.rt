//! Steps from one list of cells to the next.
ghost use Rattle.std.specs.Prelude.{◌≡◌, ℕ, ◌+◌, ◌-◌, All, IfNone, IfOk, IfSome};
ghost use Rattle.life_model.specs.Evolution.{next};
ghost use Rattle.life_model.specs.Generation as generations;
ghost use Rattle.life_cells.specs.Limits.{IsWithin, age_limit};
ghost use Rattle.life_plane.specs.Offsets.{AreNotTranslates, IsOffset};

use life_cells::{CellList, Rule};
use life_plane::{AGE_LIMIT, Plane, offset_between};
use std::alloc::{AllocError, Global};

/// A copy of a list of cells.
pub fn copied(alloc: Global, cells: &CellList) -> Result<CellList, AllocError>
    ensures { IfOk result (λ copy. copy ≡ cells.now) }
{
    Ok(CellList::from_ordered(cells.as_slice().to_vec(alloc)?))
}

/// The next generation.
pub fn next_list<P: Plane>(
    alloc: Global,
    rule: &Rule,
    cells: &CellList,
) -> Result<CellList, AllocError>
    requires { All (IsWithin (age_limit - 1)) (generations.cells cells.now) }
    ensures next { IfOk result (λ later. later ≡ next rule.now cells.now) }
    ensures within { IfOk result
        (λ later. (a : ℕ) → All (IsWithin a) (generations.cells cells.now) →
        All (IsWithin (a + 1)) (generations.cells later)) }
{
    let mut plane = P::at_age(alloc, cells, AGE_LIMIT - 1)?;
    plane.step(rule)?;
    let later = plane.cells()?;
    Ok(later)
}

/// The move from the first set to the second, if the second is the first moved as a whole. The empty set isn't moved.
pub fn offset(from: &CellList, to: &CellList) -> Option<(i32, i32)>
    ensures offset { IfSome result (λ d. IsOffset from.now to.now d) }
    ensures apart { IfNone result (AreNotTranslates from.now to.now) }
{
    offset_between(from.as_slice(), to.as_slice())
}
