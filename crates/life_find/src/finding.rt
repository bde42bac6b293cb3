//! The finding for a pattern.
ghost use Rattle.std.specs.Prelude.{◌≡◌, ◌≤◌, All, IfOk};
ghost use Rattle.life_model.specs.Generation as generation;
ghost use Rattle.life_cells.specs.Limits.{IsWithin};
ghost use Rattle.life_answer.specs.Answers.{finding_of, outcome_of};
ghost use Rattle.life_answer.specs.Questions.{finding_to, outcome_to};
ghost use Rattle.life_answer.specs.declared.finding.Outcome.TheVariants.{Recurs};
ghost use Rattle.life_answer.specs.declared.question.Question.TheVariants.{Settles};

use crate::apgcode::code_of;
use crate::larger::too_large;
use crate::limit::BOUND_LIMIT;
use crate::recurrence::Recurrence;
use crate::rounds::found_early;
use crate::search::settling;
use life_answer::{Code, Finding, Outcome};
use life_cells::{CellList, Rule};
use life_plane::{Observer, Plane, Unobserved};
use life_text::Pattern;
use std::alloc::{AllocError, Global};

/// The outcome of a pattern that settles.
fn recurs(recurrence: Recurrence, code: Code) -> Outcome
    ensures { result ≡
        Recurs recurrence.onset recurrence.period recurrence.displacement.0
        recurrence.displacement.1 code }
{
    let Recurrence {
        onset,
        period,
        displacement,
    } = recurrence;
    let (dx, dy) = displacement;
    Outcome::Recurs {
        onset,
        period,
        dx,
        dy,
        code,
    }
}

/// The outcome of the cells of a plane at age 0.
fn outcome_on<P: Plane, W: Observer>(
    alloc: Global,
    observer: &W,
    plane: &mut P,
    rule: &Rule,
    cells: &CellList,
    bound: u32,
) -> Result<Outcome, AllocError>
    requires fits { All (IsWithin 0) (generation.cells cells.now) }
    requires bound { 1 ≤ bound × bound ≤ BOUND_LIMIT }
    requires cells { cells.now ≡ P.members plane.old }
    requires new { P.steps_made plane.old ≡ 0 }
    ensures { IfOk result (λ outcome. outcome ≡ outcome_of rule.now cells.now bound) }
{
    match settling(alloc, observer, plane, cells, rule, bound)? {
        None => Ok(Outcome::Unresolved),
        Some(recurrence) => {
            let code = code_of(alloc, cells, plane, rule, &recurrence)?;
            Ok(recurs(recurrence, code))
        }
    }
}

/// The outcome of cells whose places are from 0 to 1,048,575.
pub fn outcome_of<P: Plane, W: Observer>(
    alloc: Global,
    observer: &W,
    rule: &Rule,
    cells: &CellList,
    bound: u32,
) -> Result<Outcome, AllocError>
    requires fits { All (IsWithin 0) (generation.cells cells.now) }
    requires bound { 1 ≤ bound × bound ≤ BOUND_LIMIT }
    ensures { IfOk result (λ outcome. outcome ≡ outcome_of rule.now cells.now bound) }
{
    let mut plane = P::from_cells(alloc, cells)?;
    outcome_on(alloc, observer, &mut plane, rule, cells, bound)
}

/// The finding for cells whose places are from 0 to 1,048,575.
pub fn find_cells<P: Plane>(
    alloc: Global,
    rule: &Rule,
    cells: &CellList,
    bound: u32,
) -> Result<Finding, AllocError>
    requires fits { All (IsWithin 0) (generation.cells cells.now) }
    requires bound { 1 ≤ bound × bound ≤ BOUND_LIMIT }
    ensures { IfOk result (λ found. found ≡ finding_of rule.now cells.now bound) }
{
    let population = cells.len() as u64;
    let outcome = outcome_of::<P, Unobserved>(alloc, &Unobserved, rule, cells, bound)?;
    Ok(Finding {
        population,
        outcome,
    })
}

/// The finding for a pattern within the bound, over planes of any kind: its population and, if some generation recurs within
/// the bound, moved as a whole, also its onset, period, displacement and apgcode, as on LifeWiki.
///
/// It may examine generations past the bound, up to twice the bound.
pub fn find<P: Plane>(alloc: Global, pattern: &Pattern, bound: u32) -> Result<Finding, AllocError>
    requires { 1 ≤ bound × bound ≤ BOUND_LIMIT }
    ensures { IfOk result (λ found. found ≡ finding_of pattern.now.rule pattern.now.cells bound) }
{
    find_cells::<P>(alloc, &pattern.rule(), pattern.cells(), bound)
}

/// The outcome of cells, unless some generation from 0 to the bound has more cells than it may have.
fn outcome_limited<P: Plane, W: Observer>(
    alloc: Global,
    observer: &W,
    rule: &Rule,
    cells: &CellList,
    bound: u32,
    limit: Option<u32>,
) -> Result<Outcome, AllocError>
    requires fits { All (IsWithin 0) (generation.cells cells.now) }
    requires bound { 1 ≤ bound × bound ≤ BOUND_LIMIT }
    ensures { IfOk result
        (λ outcome. outcome ≡ outcome_to (Settles bound limit) rule.now cells.now) }
{
    if let Some(outcome) = found_early::<P, W>(alloc, observer, rule, cells, bound, limit)? {
        return Ok(outcome);
    }
    if let Some(large) = too_large::<P, W>(alloc, observer, rule, cells, limit, bound)? {
        return Ok(large);
    }
    outcome_of::<P, W>(alloc, observer, rule, cells, bound)
}

/// The finding of `find`, unless some generation from 0 to the bound has more cells than it may have. With such a limit, the
/// generations are examined in rounds. The first round examines only the first few, and all those up to the bound are examined
/// only if no earlier round decides what is found. The generations that are examined are reported to an observer.
pub fn find_limited<P: Plane, W: Observer>(
    alloc: Global,
    observer: &W,
    pattern: &Pattern,
    bound: u32,
    limit: Option<u32>,
) -> Result<Finding, AllocError>
    requires { 1 ≤ bound × bound ≤ BOUND_LIMIT }
    ensures { IfOk result
        (λ found. found ≡ finding_to (Settles bound limit) pattern.now.rule pattern.now.cells) }
{
    let cells = pattern.cells();
    Ok(Finding {
        population: cells.len() as u64,
        outcome: outcome_limited::<P, W>(alloc, observer, &pattern.rule(), cells, bound, limit)?,
    })
}
