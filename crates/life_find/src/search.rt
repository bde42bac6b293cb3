//! The search for the first generation that recurs.
ghost use Rattle.std.specs.Prelude.{◌≡◌, ℕ, ◌+◌, ◌*◌, ◌<◌, ◌≤◌, All, IfNone, IfOk, IfSome, OnOk};
ghost use Rattle.life_model.specs.Evolution.{generation};
ghost use Rattle.life_model.specs.Generation as generations;
ghost use Rattle.life_model.specs.Recurrence.{IsPeriodAt, Settles, SettlesAt};
ghost use Rattle.life_model.specs.Symmetry.{normal};
ghost use Rattle.life_cells.specs.Limits.{IsWithin};

use crate::brent::find_return;
use crate::candidates::first_alike;
use crate::limit::BOUND_LIMIT;
use crate::offset::plane_offset;
use crate::recurrence::Recurrence;
use life_cells::{CellList, Rule};
use life_plane::{AGE_LIMIT, Observer, Plane};
use std::alloc::{AllocError, Global};

fn advance<P: Plane>(plane: &mut P, rule: &Rule, steps: u32) -> Result<(), AllocError>
    requires { P.steps_made plane.old + steps ≤ AGE_LIMIT }
    ensures cells { OnOk result
        (P.members plane.new ≡ generation rule.now (P.members plane.old) steps) }
    ensures age { OnOk result (P.steps_made plane.new ≡ P.steps_made plane.old + steps) }
{
    for _ in 0..steps {
        plane.step(rule)?;
    }
    Ok(())
}

/// The first generation that recurs within the bound, the number of steps after which it does, and the displacement. The
/// plane of the cells then has those of that generation, wherever they are.
pub fn settling<P: Plane, W: Observer>(
    alloc: Global,
    observer: &W,
    runner: &mut P,
    cells: &CellList,
    rule: &Rule,
    bound: u32,
) -> Result<Option<Recurrence>, AllocError>
    requires fits { All (IsWithin 0) (generations.cells cells.now) }
    requires bound { 1 ≤ bound × bound ≤ BOUND_LIMIT }
    requires cells { cells.now ≡ P.members runner.old }
    requires new { P.steps_made runner.old ≡ 0 }
    ensures found { IfOk result
        (λ answer. IfSome answer
        (λ r. Settles rule.now cells.now bound
        (record { onset = r.onset; period = r.period; displacement = r.displacement }))) }
    ensures shape { IfOk result
        (λ answer. IfSome answer
        (λ r. normal (P.members runner.new) ≡ normal (generation rule.now cells.now r.onset))) }
    ensures age { IfOk result (λ answer. IfSome answer (λ r. P.steps_made runner.new ≤ 2 * bound)) }
    ensures none { IfOk result
        (λ answer. IfNone answer ((g : ℕ) → SettlesAt rule.now cells.now bound g → ⊥)) }
{
    let mut fingerprints = Vec::new(alloc);
    let seen = match find_return(
        alloc,
        observer,
        runner,
        cells,
        rule,
        bound,
        &mut fingerprints,
    )? {
        Some(seen) => seen,
        None => return Ok(None),
    };
    let last = bound - seen.period;
    let first = first_alike(&fingerprints, seen.period, last);
    if first > last {
        return Ok(None);
    }
    if seen.onset <= first {
        return Ok(Some(seen));
    }
    settling_from(alloc, runner, cells, rule, bound, seen.period, first)
}

/// The first generation that recurs within the bound, if the period and a generation before which none recurs are known.
///
/// It is not inlined: within `settling` each search would first make room for its planes.
#[inline(never)]
fn settling_from<P: Plane>(
    alloc: Global,
    runner: &mut P,
    cells: &CellList,
    rule: &Rule,
    bound: u32,
    period: u32,
    first: u32,
) -> Result<Option<Recurrence>, AllocError>
    requires fits { All (IsWithin 0) (generations.cells cells.now) }
    requires bound { 1 ≤ bound × bound ≤ BOUND_LIMIT }
    requires range { first + period ≤ bound }
    requires period { (t : ℕ) × IsPeriodAt rule.now cells.now t period }
    requires earlier { (n : ℕ) → n < first →
        normal (generation rule.now cells.now (n + period)) ≡
        normal (generation rule.now cells.now n) → ⊥ }
    ensures found { IfOk result
        (λ answer. IfSome answer
        (λ r. Settles rule.now cells.now bound
        (record { onset = r.onset; period = r.period; displacement = r.displacement }))) }
    ensures shape { IfOk result
        (λ answer. IfSome answer
        (λ r. normal (P.members runner.new) ≡ normal (generation rule.now cells.now r.onset))) }
    ensures age { IfOk result (λ answer. IfSome answer (λ r. P.steps_made runner.new ≤ 2 * bound)) }
    ensures none { IfOk result
        (λ answer. IfNone answer ((g : ℕ) → SettlesAt rule.now cells.now bound g → ⊥)) }
{
    *runner = P::from_cells(alloc, cells)?;
    advance(runner, rule, first)?;
    let mut later = runner.copy()?;
    advance(&mut later, rule, period)?;
    for onset in first..bound - period + 1 {
        if let Some(displacement) = plane_offset(runner, &later)? {
            return Ok(Some(Recurrence {
                onset,
                period,
                displacement,
            }));
        }
        runner.step(rule)?;
        later.step(rule)?;
    }
    Ok(None)
}
