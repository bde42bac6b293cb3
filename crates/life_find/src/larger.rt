//! Generations that have more cells than they may have.
ghost use Rattle.std.specs.Prelude.{◌≡◌, ◌<◌, All, IfNone, IfOk, IfSome};
ghost use Rattle.life_model.specs.Generation as generations;
ghost use Rattle.life_cells.specs.Limits.{IsWithin};
ghost use Rattle.life_answer.specs.Limited.{first_larger, outcome_unless_large};
ghost use Rattle.life_answer.specs.declared.finding.Outcome.{Outcome as Becomes};

use life_answer::Outcome;
use life_cells::{CellList, Rule};
use life_plane::{AGE_LIMIT, Observer, Plane};
use std::alloc::{AllocError, Global};

/// The first generation from 0 to the last that has more than `most` cells. No generation after it is examined. Each that is
/// examined is reported to an observer.
pub fn first_larger<P: Plane, W: Observer>(
    alloc: Global,
    observer: &W,
    rule: &Rule,
    cells: &CellList,
    most: u32,
    last: u32,
) -> Result<Option<u32>, AllocError>
    requires fits { All (IsWithin 0) (generations.cells cells.now) }
    requires last { last < AGE_LIMIT }
    ensures { IfOk result (λ found. found ≡ first_larger rule.now cells.now most last) }
{
    let mut plane = P::from_cells(alloc, cells)?;
    for n in 0..last {
        observer.reached(n);
        if plane.population() > u64::from(most) {
            return Ok(Some(n));
        }
        plane.step(rule)?;
    }
    if plane.population() > u64::from(most) {
        return Ok(Some(last));
    }
    Ok(None)
}

/// The outcome of cells if some generation up to the last has more than it may have, whatever the outcome would be otherwise.
/// If any number is allowed, no generation is examined.
pub fn too_large<P: Plane, W: Observer>(
    alloc: Global,
    observer: &W,
    rule: &Rule,
    cells: &CellList,
    limit: Option<u32>,
    last: u32,
) -> Result<Option<Outcome>, AllocError>
    requires fits { All (IsWithin 0) (generations.cells cells.now) }
    requires last { last < AGE_LIMIT }
    ensures large { IfOk result
        (λ answer. IfSome answer
        (λ large. (other : Becomes) →
        outcome_unless_large limit rule.now cells.now last other ≡ large)) }
    ensures small { IfOk result
        (λ answer. IfNone answer
        ((other : Becomes) → outcome_unless_large limit rule.now cells.now last other ≡ other)) }
{
    let Some(most) = limit else {
        return Ok(None);
    };
    let Some(generation) = first_larger::<P, W>(alloc, observer, rule, cells, most, last)? else {
        return Ok(None);
    };
    Ok(Some(Outcome::Large { generation }))
}
