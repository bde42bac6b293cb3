//! The test of whether two sets of cells settle into one object.
ghost use Rattle.std.specs.Prelude.{◌≤◌, ℕ, All, IfNone, IfOk, IfSome};
ghost use Rattle.life_model.specs.Generation as generation;
ghost use Rattle.life_model.specs.Recurrence.{SettlesAt};
ghost use Rattle.life_cells.specs.Limits.{IsWithin};
ghost use Rattle.life_find.specs.Objects.{SettlesIntoCode, TellsObject};

use crate::finding::outcome_of;
use crate::limit::BOUND_LIMIT;
use life_answer::{Code, Outcome};
use life_board::Board;
use life_cells::{CellList, Rule};
use life_plane::{Plane, Unobserved};
use std::alloc::{AllocError, Global};

/// The code of the object that a set of cells settles into, if it does within the bound.
fn settled_code<P: Plane>(
    alloc: Global,
    rule: &Rule,
    cells: &CellList,
    bound: u32,
) -> Result<Option<Code>, AllocError>
    requires fits { All (IsWithin 0) (generation.cells cells.now) }
    requires bound { 1 ≤ bound × bound ≤ BOUND_LIMIT }
    ensures settled { IfOk result
        (λ answer. IfSome answer (SettlesIntoCode rule.now cells.now bound)) }
    ensures unsettled { IfOk result
        (λ answer. IfNone answer ((g : ℕ) → SettlesAt rule.now cells.now bound g → ⊥)) }
{
    match outcome_of::<P, Unobserved>(alloc, &Unobserved, rule, cells, bound)? {
        Outcome::Recurs { code, .. } => Ok(Some(code)),
        _ => Ok(None),
    }
}

/// True where two sets of cells settle into one object, over planes of one kind.
fn same_object_on<P: Plane>(
    alloc: Global,
    rule: &Rule,
    first: &CellList,
    second: &CellList,
    bound: u32,
) -> Result<Option<bool>, AllocError>
    requires first_fits { All (IsWithin 0) (generation.cells first.now) }
    requires second_fits { All (IsWithin 0) (generation.cells second.now) }
    requires bound { 1 ≤ bound × bound ≤ BOUND_LIMIT }
    ensures settled { IfOk result
        (λ answer. IfSome answer (TellsObject rule.now first.now second.now bound)) }
    ensures unsettled { IfOk result (λ answer. IfNone answer ((g h : ℕ) →
        SettlesAt rule.now first.now bound g → SettlesAt rule.now second.now bound h → ⊥)) }
{
    let first = match settled_code::<P>(alloc, rule, first, bound)? {
        Some(code) => code,
        None => return Ok(None),
    };
    let second = match settled_code::<P>(alloc, rule, second, bound)? {
        Some(code) => code,
        None => return Ok(None),
    };
    Ok(Some(first.as_slice() == second.as_slice()))
}

/// True where two sets of cells, whose places are from 0 to 1,048,575, settle into one object under a rule: some phase of
/// one, at its onset or later, turned by one of the eight maps and moved, is such a phase of the other. `None` exactly if
/// one of them doesn't settle within the bound.
pub fn same_object(
    alloc: Global,
    rule: &Rule,
    first: &CellList,
    second: &CellList,
    bound: u32,
) -> Result<Option<bool>, AllocError>
    requires first_fits { All (IsWithin 0) (generation.cells first.now) }
    requires second_fits { All (IsWithin 0) (generation.cells second.now) }
    requires bound { 1 ≤ bound × bound ≤ BOUND_LIMIT }
    ensures settled { IfOk result
        (λ answer. IfSome answer (TellsObject rule.now first.now second.now bound)) }
    ensures unsettled { IfOk result (λ answer. IfNone answer ((g h : ℕ) →
        SettlesAt rule.now first.now bound g → SettlesAt rule.now second.now bound h → ⊥)) }
{
    same_object_on::<Board>(alloc, rule, first, second, bound)
}
