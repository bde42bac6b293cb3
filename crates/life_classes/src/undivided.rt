//! A test for cells that are undivided.
ghost use Rattle.std.specs.Prelude.{ℕ, ◌≤◌, ◌+◌, ◌↔◌, IfOk, IsTrue};
ghost use Rattle.life_model.specs.Rule.{Rule as ModelRule};
ghost use Rattle.life_objects.specs.Piece.{IsUndivided};

use crate::split::{are_few, first_split, followed};
use crate::splitting::first_classes;
use life_cells::{CellList, Rule};
use life_plane::{AGE_LIMIT, Plane};
use std::alloc::{AllocError, Global};

/// True if the cells are one class from the start. They are then undivided under each rule and for each bound.
pub fn hold_together(alloc: Global, cells: &CellList) -> Result<bool, AllocError>
    ensures { IfOk result
        (λ are. IsTrue are → (R : ModelRule) (b : ℕ) → IsUndivided R b cells.now) }
{
    let classes = first_classes(alloc, cells.as_slice())?;
    Ok(classes.len() < 2)
}

/// True if no split of the plane's cells into two sets that stay apart for `bound` generations leaves both alive at the
/// end. The walk ends once at most one class lives: what has died stays dead.
pub fn is_undivided<P: Plane>(
    alloc: Global,
    plane: P,
    rule: &Rule,
    bound: u32,
) -> Result<bool, AllocError>
    requires young { P.steps_made plane + bound ≤ AGE_LIMIT }
    ensures { IfOk result (λ is. IsTrue is ↔ IsUndivided rule.now bound (P.members plane)) }
{
    let mut plane = plane;
    let first = plane.cells()?;
    let last = plane.cells()?;
    let mut split = first_split(alloc, first, last)?;
    for _ in 0..bound {
        if are_few(&split) {
            return Ok(true);
        }
        plane.step(rule)?;
        let cells = plane.cells()?;
        split = followed(alloc, split, cells)?;
    }
    Ok(are_few(&split))
}
