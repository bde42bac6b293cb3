//! Classes that show by themselves that a set doesn't grow.
ghost use Rattle.std.specs.Prelude.{◌+◌, ◌<◌, ◌≤◌, All, IfOk, IfSome, length};
ghost use Rattle.std.specs.Bool.{OnTrue};
ghost use Rattle.life_model.specs.Generation as generations;
ghost use Rattle.life_cells.specs.Limits.{IsWithin};
ghost use Rattle.life_ash.specs.Parts.{ash_age_limit};
ghost use Rattle.life_classes.specs.Tracking.{first_sets};
ghost use Rattle.life_growing.specs.Loose.{HasLoose, IsLoose};

use crate::refusal::are_no_engine;
use crate::settling::falls_apart;
use life_cells::{CellList, Rule};
use life_classes::Class;
use life_plane::Plane;
use life_things::WAY_LIMIT;
use std::alloc::{AllocError, Global};

/// Of the classes with the most cells, `FEW` are looked at: cells that never fall apart are usually among them.
const FEW: u32 = 4;

/// True if the cells, of this age, are seen to be no engine within the bound and not to fall apart within twice as
/// many generations. False if twice the bound is more than `WAY_LIMIT`.
fn is_loose<P: Plane>(
    alloc: Global,
    rule: &Rule,
    cells: &CellList,
    age: u32,
    bound: u32,
) -> Result<bool, AllocError>
    requires bound { 1 ≤ bound × bound ≤ WAY_LIMIT }
    requires age { (age + bound) + bound ≤ ash_age_limit }
    requires within { All (IsWithin age) (generations.cells cells.now) }
    ensures { IfOk result (λ is. OnTrue is (IsLoose rule.now bound cells.now)) }
{
    if bound > WAY_LIMIT / 2 {
        return Ok(false);
    }
    if !are_no_engine::<P>(alloc, rule, cells, age, bound)? {
        return Ok(false);
    }
    let falls = falls_apart::<P>(alloc, rule, cells, age, 2 * bound)?;
    Ok(!falls)
}

/// The place of a class with the most cells, among those that have fewer than `count`.
fn largest_below(classes: &[Class], count: usize) -> Option<usize>
    ensures { IfSome result (λ place. place < length classes.now) }
{
    let mut largest = None;
    let mut most = 0;
    for n in 0..classes.len() {
        let cells = classes[n].first.len();
        if most < cells && cells < count {
            largest = Some(n);
            most = cells;
        }
    }
    largest
}

/// True if one of the largest classes of a set of this age shows that the set doesn't grow within the bound: in a
/// growth, the class would be an engine or fall apart beside the engines. Of classes with equally many cells only one
/// is looked at.
pub fn one_is_loose<P: Plane>(
    alloc: Global,
    rule: &Rule,
    classes: &[Class],
    age: u32,
    bound: u32,
) -> Result<bool, AllocError>
    requires bound { 1 ≤ bound × bound ≤ WAY_LIMIT }
    requires age { (age + bound) + bound ≤ ash_age_limit }
    requires within { All (λ P. All (IsWithin age) (generations.cells P)) (first_sets classes.now) }
    ensures { IfOk result (λ is. OnTrue is (HasLoose rule.now bound (first_sets classes.now))) }
{
    let mut count = usize::MAX;
    for _ in 0..FEW {
        let Some(place) = largest_below(classes, count) else {
            return Ok(false);
        };
        let cells = &classes[place].first;
        if is_loose::<P>(alloc, rule, cells, age, bound)? {
            return Ok(true);
        }
        count = cells.len();
    }
    Ok(false)
}
