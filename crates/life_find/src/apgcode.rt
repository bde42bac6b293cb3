//! Codes of objects.
ghost use Rattle.std.specs.Prelude.{◌≡◌, ◌+◌, ◌≤◌, All, IfOk, IsTrue, None, OnOk, [], unwrap_or};
ghost use Rattle.std.specs.List.{fold};
ghost use Rattle.life_model.specs.Box.{height, width};
ghost use Rattle.life_model.specs.Evolution.{generation};
ghost use Rattle.life_model.specs.Generation as generations;
ghost use Rattle.life_model.specs.Symmetry.{normal};
ghost use Rattle.life_cells.specs.Limits.{IsWithin, extent_limit};
ghost use Rattle.life_cells.specs.TextOrder.{least_text};
ghost use Rattle.life_answer.specs.Apgcode.{bodies, code_of, turned_bodies};
ghost use Rattle.life_codes.specs.Least.{with_text};

use crate::recurrence::Recurrence;
use life_answer::Code;
use life_cells::{CellList, Rule};
use life_codes::{LeastText, prefix};
use life_plane::{AGE_LIMIT, Plane};
use std::alloc::{AllocError, Global};

/// Lists the cells of a plane, in the memory of a list that is no longer needed.
fn list_phase<P: Plane>(plane: &P, list: CellList) -> Result<CellList, AllocError>
    requires { P.steps_made plane.now ≤ AGE_LIMIT }
    ensures cells { IfOk result (λ phase. phase ≡ P.members plane.now) }
    ensures wide { IfOk result (λ phase. width phase ≤ extent_limit) }
    ensures high { IfOk result (λ phase. height phase ≤ extent_limit) }
{
    prove!(plane.age() <= AGE_LIMIT);
    plane.cells_in(list)
}

/// True only if this is the least text of these cells, in all eight orientations.
fn has_text(alloc: Global, phase: &CellList, text: &[u8]) -> Result<bool, AllocError>
    requires wide { width phase.now ≤ extent_limit }
    requires high { height phase.now ≤ extent_limit }
    ensures { IfOk result
        (λ same. IsTrue same → least_text (turned_bodies phase.now) ≡ text.now) }
{
    let mut own = LeastText::new(alloc);
    own.add(phase)?;
    Ok(own.text() == text)
}

/// Adds the texts of all phases of one period, in all eight orientations. The list has the cells of the first phase, wherever
/// they are; all later ones are listed in one piece of memory. If the phase after half the period is the first one, turned and
/// moved, the second half of the phases has no other texts than the first.
fn add_phases<P: Plane>(
    alloc: Global,
    least: &mut LeastText,
    listed: &CellList,
    plane: &mut P,
    rule: &Rule,
    period: u32,
) -> Result<(), AllocError>
    requires none { least.old ≡ None }
    requires wide { width listed.now ≤ extent_limit }
    requires high { height listed.now ≤ extent_limit }
    requires same { normal listed.now ≡ normal (P.members plane.old) }
    requires period { 1 ≤ period }
    requires young { P.steps_made plane.old + period ≤ AGE_LIMIT }
    ensures { OnOk result
        (unwrap_or least.new [] ≡ least_text (bodies rule.now (P.members plane.old) period)) }
{
    least.add(listed)?;
    let mut first = Vec::new(alloc);
    if period > 2 {
        first.extend_from_slice(least.text())?;
    }
    let room = if period > 1 { listed.len() } else { 0 };
    let mut phase = CellList::with_capacity(alloc, room)?;
    for n in 1..period {
        plane.step(rule)?;
        phase = list_phase(plane, phase)?;
        if n > 1 && n + n == period && has_text(alloc, &phase, &first)? {
            return Ok(());
        }
        least.add(&phase)?;
    }
    Ok(())
}

/// The code of the cells of a plane, which recur as the recurrence says. The list has these cells, wherever they are.
fn code_from<P: Plane>(
    alloc: Global,
    listed: &CellList,
    plane: &mut P,
    rule: &Rule,
    recurrence: &Recurrence,
) -> Result<Code, AllocError>
    requires wide { width listed.now ≤ extent_limit }
    requires high { height listed.now ≤ extent_limit }
    requires same { normal listed.now ≡ normal (P.members plane.old) }
    requires period { 1 ≤ recurrence.now.period }
    requires young { P.steps_made plane.old + recurrence.now.period ≤ AGE_LIMIT }
    ensures { IfOk result
        (λ code. code ≡
        code_of rule.now (P.members plane.old) recurrence.now.period recurrence.now.displacement) }
{
    let population = listed.len() as u64;
    let mut text = prefix(
        alloc,
        population,
        recurrence.period,
        recurrence.displacement,
    )?;
    let mut least = LeastText::new(alloc);
    add_phases(alloc, &mut least, listed, plane, rule, recurrence.period)?;
    text.extend_from_slice(least.text())?;
    Code::of(alloc, &text)
}

/// The code of the cells of a plane, which recur as the recurrence says. If a pattern recurs from its first generation on, its
/// own list has the cells of the first phase.
pub fn code_of<P: Plane>(
    alloc: Global,
    cells: &CellList,
    plane: &mut P,
    rule: &Rule,
    recurrence: &Recurrence,
) -> Result<Code, AllocError>
    requires fits { All (IsWithin 0) (generations.cells cells.now) }
    requires shape { normal (P.members plane.old) ≡
        normal (generation rule.now cells.now recurrence.now.onset) }
    requires period { 1 ≤ recurrence.now.period }
    requires young { P.steps_made plane.old + recurrence.now.period ≤ AGE_LIMIT }
    ensures { IfOk result
        (λ code. code ≡
        code_of rule.now (P.members plane.old) recurrence.now.period recurrence.now.displacement) }
{
    if recurrence.onset == 0 {
        return code_from(alloc, cells, plane, rule, recurrence);
    }
    prove!(plane.age() <= AGE_LIMIT);
    let listed = plane.cells()?;
    code_from(alloc, &listed, plane, rule, recurrence)
}
