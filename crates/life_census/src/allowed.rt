//! The bound within which a pattern may be searched for growth, where no generation may have more than some number of cells.
ghost use Rattle.std.specs.Prelude.{◌≡◌, ◌≤◌, All, IfOk};
ghost use Rattle.life_model.specs.Generation as generations;
ghost use Rattle.life_cells.specs.Limits.{IsWithin};
ghost use Rattle.life_answer.specs.Growing.{allowed_bound};

use life_cells::{CellList, Rule};
use life_orbit::BOUND_LIMIT;
use life_plane::Plane;
use std::alloc::{AllocError, Global};

/// The greatest bound from 1 to this one such that no generation up to four times that bound has more cells than it may have,
/// or 0 if there is none. No generation after the first that has more is looked at, and none if there is no limit.
pub fn allowed_bound<P: Plane>(
    alloc: Global,
    rule: &Rule,
    cells: &CellList,
    bound: u32,
    limit: Option<u32>,
) -> Result<u32, AllocError>
    requires bound { 1 ≤ bound × bound ≤ BOUND_LIMIT }
    requires fits { All (IsWithin 0) (generations.cells cells.now) }
    ensures { IfOk result (λ allowed. allowed ≡ allowed_bound limit rule.now cells.now bound) }
{
    let Some(most) = limit else {
        return Ok(bound);
    };
    let mut plane = P::from_cells(alloc, cells)?;
    for n in 0..4 * bound + 1 {
        if plane.population() > u64::from(most) {
            return Ok(n.saturating_sub(1) / 4);
        }
        plane.step(rule)?;
    }
    Ok(bound)
}
