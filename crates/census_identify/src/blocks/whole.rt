//! The recurrence of a pattern's parts as a whole.
ghost use Rattle.std.specs.Prelude.{◌≡◌, ◌+◌, ◌≤◌, All, IfOk, OnOk};
ghost use Rattle.life_model.specs.Evolution.{generation};
ghost use Rattle.life_model.specs.Generation as generations;
ghost use Rattle.life_cells.specs.Limits.{IsWithin};
ghost use Rattle.census_identify.specs.Blocks.Whole.{IsWholeWithin};

use life_cells::{CellList, Rule};
use life_plane::{AGE_LIMIT, Plane};
use std::alloc::{AllocError, Global};

/// The period of a pattern that has become several parts, and its displacement in a period.
#[derive(Clone, Copy)]
pub struct Whole {
    /// The number of generations after which it first recurs.
    pub period: u32,
    /// The displacement after them, to the right and down.
    pub displacement: (i32, i32),
}

// Makes this number of steps.
fn advance<P: Plane>(plane: &mut P, rule: &Rule, steps: u32) -> Result<(), AllocError>
    requires { P.steps_made plane.old + steps ≤ AGE_LIMIT }
    ensures cells { OnOk result
        (P.members plane.new ≡ generation rule.now (P.members plane.old) steps) }
    ensures age { OnOk result (P.steps_made plane.new ≡ P.steps_made plane.old + steps) }
{
    for _ in 0..steps {
        plane.step(rule)?;
    }
    Ok(())
}

// The first recurrence of the cells of a plane within `most` steps, where there is one.
fn coming_again<P: Plane>(
    plane: &mut P,
    rule: &Rule,
    most: u32,
) -> Result<Option<Whole>, AllocError>
    requires { P.steps_made plane.old + most ≤ AGE_LIMIT }
    ensures { IfOk result (IsWholeWithin rule.now (P.members plane.old) most) }
{
    let cells = plane.cells()?;
    for steps in 0..most {
        plane.step(rule)?;
        if let Some(displacement) = plane.offset_from(&cells)? {
            return Ok(Some(Whole {
                period: steps + 1,
                displacement,
            }));
        }
    }
    Ok(None)
}

/// The first recurrence, as a whole and within `most` generations, of generation `onset` of these cells, where there is one.
/// Their coordinates are from 0 to 1,048,575.
pub fn whole_within<P: Plane>(
    alloc: Global,
    rule: &Rule,
    cells: &CellList,
    onset: u32,
    most: u32,
) -> Result<Option<Whole>, AllocError>
    requires fits { All (IsWithin 0) (generations.cells cells.now) }
    requires young { onset + most ≤ AGE_LIMIT }
    ensures { IfOk result (IsWholeWithin rule.now (generation rule.now cells.now onset) most) }
{
    let mut plane = P::from_cells(alloc, cells)?;
    advance(&mut plane, rule, onset)?;
    coming_again(&mut plane, rule, most)
}
