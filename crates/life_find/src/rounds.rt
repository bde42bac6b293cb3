//! The outcome of a pattern, if its first generations decide it.
ghost use Rattle.std.specs.Prelude.{◌≡◌, ℕ, ◌≤◌, All, IfNone, IfOk, IfSome};
ghost use Rattle.life_model.specs.Generation as generations;
ghost use Rattle.life_cells.specs.Limits.{IsWithin};
ghost use Rattle.life_answer.specs.Questions.{outcome_to};
ghost use Rattle.life_answer.specs.declared.finding.Outcome.TheVariants.{Unresolved};
ghost use Rattle.life_answer.specs.declared.question.Question.TheVariants.{Settles};

use crate::finding::outcome_of;
use crate::larger::too_large;
use crate::limit::BOUND_LIMIT;
use life_answer::Outcome;
use life_cells::{CellList, Rule};
use life_plane::{Observer, Plane};
use std::alloc::{AllocError, Global};

/// The generation up to which the first round goes.
const FIRST_REACH: u32 = 16;

/// The factor by which each round goes further than the one before it.
const REACH_GROWTH: u32 = 4;

/// The outcome of cells, whose generations may have no more cells than the limit, within every bound from the reach on: a
/// generation up to the reach is too large or, if none is, they recur within the reach. `None` if they do neither.
fn found_to<P: Plane, W: Observer>(
    alloc: Global,
    observer: &W,
    rule: &Rule,
    cells: &CellList,
    limit: Option<u32>,
    reach: u32,
) -> Result<Option<Outcome>, AllocError>
    requires fits { All (IsWithin 0) (generations.cells cells.now) }
    requires reach { 1 ≤ reach × reach ≤ BOUND_LIMIT }
    ensures found { IfOk result (λ answer. IfSome answer (λ found. (bound : ℕ) → reach ≤ bound →
        outcome_to (Settles bound limit) rule.now cells.now ≡ found)) }
    ensures open { IfOk result (λ answer. IfNone answer (
        outcome_to (Settles reach limit) rule.now cells.now ≡ Unresolved)) }
{
    if let Some(large) = too_large::<P, W>(alloc, observer, rule, cells, limit, reach)? {
        return Ok(Some(large));
    }
    match outcome_of::<P, W>(alloc, observer, rule, cells, reach)? {
        Outcome::Unresolved => Ok(None),
        found => Ok(Some(found)),
    }
}

/// The outcome of cells within the bound, if there is a limit and their first generations decide it. These are examined in
/// rounds. Each begins again and goes four times as far as the one before it, and none goes further than a fourth of the bound.
/// So all rounds together examine no more than a third as many generations as a search up to the bound may.
pub fn found_early<P: Plane, W: Observer>(
    alloc: Global,
    observer: &W,
    rule: &Rule,
    cells: &CellList,
    bound: u32,
    limit: Option<u32>,
) -> Result<Option<Outcome>, AllocError>
    requires fits { All (IsWithin 0) (generations.cells cells.now) }
    requires bound { 1 ≤ bound × bound ≤ BOUND_LIMIT }
    ensures { IfOk result (λ answer. IfSome answer (λ found.
        outcome_to (Settles bound limit) rule.now cells.now ≡ found)) }
{
    if limit.is_none() {
        return Ok(None);
    }
    let mut reach = FIRST_REACH;
    'rounds: while reach <= bound / REACH_GROWTH {
        if let Some(found) = found_to::<P, W>(alloc, observer, rule, cells, limit, reach)? {
            return Ok(Some(found));
        }
        reach *= REACH_GROWTH;
    }
    Ok(None)
}
