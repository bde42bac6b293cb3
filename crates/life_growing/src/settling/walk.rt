//! Looking at generations until one of them is ash.
ghost use Rattle.std.specs.Prelude.{◌+◌, ◌≤◌, ◌↔◌, All, IfNone, IfOk, IfSome, IsTrue};
ghost use Rattle.life_model.specs.Generation as generations;
ghost use Rattle.life_cells.specs.Limits.{IsWithin};
ghost use Rattle.life_growth.specs.Engine.{FallsApart};
ghost use Rattle.life_ash.specs.Parts.{ash_age_limit};
ghost use Rattle.life_growing.specs.Settled.Settling.{IsSettling};

use crate::settling::outcome::Settled;
use life_ash::ash_of;
use life_cells::{CellList, Rule};
use life_plane::Plane;
use life_strays::are_no_ash;
use life_things::WAY_LIMIT;
use std::alloc::{AllocError, Global};

/// For sets with more than `FEW` cells the generation of the bound is looked at first, which decides.
const FEW: usize = 128;

/// True if a set of cells falls apart within the bound, which the generation of the bound decides. Its cells are within the
/// places of this age.
pub fn falls_apart<P: Plane>(
    alloc: Global,
    rule: &Rule,
    cells: &CellList,
    age: u32,
    bound: u32,
) -> Result<bool, AllocError>
    requires bound { 1 ≤ bound × bound ≤ WAY_LIMIT }
    requires age { age + bound ≤ ash_age_limit }
    requires within { All (IsWithin age) (generations.cells cells.now) }
    ensures { IfOk result (λ does. IsTrue does ↔ FallsApart rule.now bound cells.now) }
{
    let mut later = P::at_age(alloc, cells, age)?;
    for _ in 0..bound {
        later.step(rule)?;
    }
    if are_no_ash(alloc, &later, rule, bound)? {
        return Ok(false);
    }
    match ash_of(alloc, &later, rule, bound)? {
        Some(_) => Ok(true),
        None => Ok(false),
    }
}

/// The ash that a set of cells falls apart into within the bound, if it does, and the generations before that. Its cells are
/// within the places of this age. Generations 0, 1, 2, 4 and so on are looked at, and finally that of the bound. For more than
/// `FEW` cells that of the bound is looked at first.
pub fn settled<P: Plane>(
    alloc: Global,
    rule: &Rule,
    cells: &CellList,
    age: u32,
    bound: u32,
) -> Result<Option<Settled>, AllocError>
    requires bound { 1 ≤ bound × bound ≤ WAY_LIMIT }
    requires age { age + bound ≤ ash_age_limit }
    requires within { All (IsWithin age) (generations.cells cells.now) }
    ensures some { IfOk result (λ found. IfSome found (IsSettling rule.now bound cells.now)) }
    ensures none { IfOk result (λ found. IfNone found (FallsApart rule.now bound cells.now → ⊥)) }
{
    if cells.len() > FEW && !falls_apart::<P>(alloc, rule, cells, age, bound)? {
        return Ok(None);
    }
    let mut plane = P::at_age(alloc, cells, age)?;
    let mut early = Vec::new(alloc);
    for n in 0..bound {
        if n.count_ones() <= 1 {
            if let Some(ash) = ash_of(alloc, &plane, rule, bound)? {
                return Ok(Some(Settled::of(early, ash)));
            }
        }
        early.push(plane.cells()?)?;
        plane.step(rule)?;
    }
    match ash_of(alloc, &plane, rule, bound)? {
        Some(ash) => Ok(Some(Settled::of(early, ash))),
        None => Ok(None),
    }
}
