//! Deciding whether cells come back in a later generation, with the rest of it falling apart.
ghost use Rattle.std.specs.Prelude.{◌≡◌, ℕ, ◌+◌, ◌<◌, ◌≤◌, ◌+ℤ◌, ◌≤ℤ◌, neg_ℤ, pos, All, IfOk, false, length};
ghost use Rattle.std.specs.Bool.{OnTrue};
ghost use Rattle.life_model.specs.Cell.{Cell, opposite, plus};
ghost use Rattle.life_model.specs.Generation as generations;
ghost use Rattle.life_model.specs.Generation.{contains};
ghost use Rattle.life_model.specs.Symmetry.{translate_of};
ghost use Rattle.life_objects.specs.Union.{IsSubsetOf};
ghost use Rattle.life_cells.specs.Limits.{IsPlace, IsWithin};
ghost use Rattle.life_ash.specs.Parts.{ash_age_limit};
ghost use Rattle.life_growth.specs.Engine.{FallsApart, IsEngineWithin};
ghost use Rattle.life_growing.specs.Populations.{ArePopulations};
ghost use Rattle.life_growing.specs.Returning.{ComesBackBy, IsMove, left_by};

use crate::refusal::falls_back;
use crate::settling::falls_apart;
use life_cells::{CellList, Rule, put_in_order};
use life_islands::index_near;
use life_plane::{Plane, move_between};
use life_things::WAY_LIMIT;
use std::alloc::{AllocError, Global};

/// The number of remainders that are tested for falling apart, for all periods together. After that the answer is
/// left open.
const TRIES: u32 = 16;

/// The places of two cells of a list.
#[derive(Clone, Copy)]
struct Ends {
    first: usize,
    last: usize,
}

/// The ends of the longest run of cells side by side. Few other pairs of cells have their displacement.
fn longest_run(cells: &[(i32, i32)]) -> Ends
    requires some { 0 < length cells.now }
    requires placed { All IsPlace cells.now }
    ensures first { result.first < length cells.now }
    ensures last { result.last < length cells.now }
{
    let mut longest = Ends { first: 0, last: 0 };
    let mut first = 0;
    for n in 1..cells.len() {
        if move_between(cells[n - 1], cells[n]) != (1, 0) {
            first = n;
        }
        if longest.last - longest.first < n - first {
            longest = Ends { first, last: n };
        }
    }
    longest
}

/// The cell moved.
fn moved(cell: (i32, i32), by: (i32, i32)) -> (i32, i32)
    requires placed { IsPlace cell }
    requires by { IsMove by }
    ensures { result ≡ plus cell by }
{
    (cell.0 + by.0, cell.1 + by.1)
}

/// True if all the cells, moved, are among those of a later generation. Each is looked up near the cell before it.
fn are_among(cells: &CellList, by: (i32, i32), later: &CellList) -> bool
    requires by { IsMove by }
    ensures no { result ≡ false → IsSubsetOf (translate_of cells.now by) later.now → ⊥ }
{
    let mut guess = 0;
    for cell in cells.as_slice() {
        match index_near(later, moved(*cell, by), &mut guess) {
            Some(_) => {}
            None => return false,
        }
    }
    true
}

/// The reverse of a move.
fn back(by: (i32, i32)) -> (i32, i32)
    requires { IsMove by }
    ensures fits { IsMove result }
    ensures back { result ≡ opposite by }
{
    (-by.0, -by.1)
}

/// True if a place is that of one of the cells, moved. The search starts near the last one.
fn is_moved_cell(cells: &CellList, by: (i32, i32), place: (i32, i32), guess: &mut usize) -> bool
    requires by { IsMove by }
    requires placed { IsPlace place }
    ensures { result ≡ contains (translate_of cells.now by) place }
{
    match index_near(cells, moved(place, back(by)), guess) {
        Some(_) => true,
        None => false,
    }
}

/// The cells of a later generation other than these cells, moved.
fn left_beside(
    alloc: Global,
    cells: &CellList,
    by: (i32, i32),
    later: &CellList,
) -> Result<CellList, AllocError>
    requires by { IsMove by }
    ensures { IfOk result (λ left. left ≡ left_by later.now cells.now by) }
{
    let mut items = Vec::new(alloc);
    let mut guess = 0;
    for cell in later.as_slice() {
        if !is_moved_cell(cells, by, *cell, &mut guess) {
            items.push(*cell)?;
        }
    }
    put_in_order(&mut items);
    Ok(CellList::from_ordered(items))
}

/// False only if the cells, moved, are not all among those of a later generation of this age with the rest falling
/// apart.
fn may_come_back_by<P: Plane>(
    alloc: Global,
    rule: &Rule,
    cells: &CellList,
    by: (i32, i32),
    later: &CellList,
    age: u32,
    bound: u32,
    tries: &mut u32,
) -> Result<bool, AllocError>
    requires by { IsMove by }
    requires bound { 1 ≤ bound × bound ≤ WAY_LIMIT }
    requires age { age + bound ≤ ash_age_limit }
    requires within { All (IsWithin age) (generations.cells later.now) }
    ensures no { IfOk result (λ may. may ≡ false → ComesBackBy rule.now bound cells.now later.now by → ⊥) }
{
    if !are_among(cells, by, later) {
        return Ok(false);
    }
    if *tries == 0 {
        return Ok(true);
    }
    *tries -= 1;
    let left = left_beside(alloc, cells, by, later)?;
    falls_apart::<P>(alloc, rule, &left, age, bound)
}

/// False only if there is no move for which all the cells are among those of a later generation of this age, with the
/// rest falling apart. Only moves that take two of the cells to cells of the later generation are tried.
fn may_come_back<P: Plane>(
    alloc: Global,
    rule: &Rule,
    cells: &CellList,
    ends: Ends,
    later: &CellList,
    age: u32,
    bound: u32,
    tries: &mut u32,
) -> Result<bool, AllocError>
    requires first { ends.first < length (generations.cells cells.now) }
    requires last { ends.last < length (generations.cells cells.now) }
    requires bound { 1 ≤ bound × bound ≤ WAY_LIMIT }
    requires age { age + bound ≤ ash_age_limit }
    requires within { All (IsWithin age) (generations.cells later.now) }
    ensures no { IfOk result (λ may. may ≡ false →
        (d : Cell) → ComesBackBy rule.now bound cells.now later.now d → ⊥) }
{
    let from = cells.as_slice()[ends.first];
    let to = cells.as_slice()[ends.last];
    let all = later.as_slice();
    for n in 0..all.len() {
        let by = move_between(from, all[n]);
        let mut guess = n + 1;
        if let Some(_) = index_near(later, moved(to, by), &mut guess) {
            if may_come_back_by::<P>(alloc, rule, cells, by, later, age, bound, tries)? {
                return Ok(true);
            }
        }
    }
    Ok(false)
}

/// True if cells of this age, with these populations, are seen never to come back within the bound with the rest then
/// falling apart. An engine does so after a period. Each cell of each generation is looked at.
pub fn never_come_back<P: Plane>(
    alloc: Global,
    rule: &Rule,
    cells: &CellList,
    counts: &[u64],
    age: u32,
    bound: u32,
) -> Result<bool, AllocError>
    requires bound { 1 ≤ bound × bound ≤ WAY_LIMIT }
    requires age { (age + bound) + bound ≤ ash_age_limit }
    requires within { All (IsWithin age) (generations.cells cells.now) }
    requires counts { ArePopulations rule.now cells.now (length counts.now) counts.now }
    ensures { IfOk result (λ no. OnTrue no (IsEngineWithin rule.now bound cells.now → ⊥)) }
{
    if cells.is_empty() {
        return Ok(true);
    }
    let ends = longest_run(cells.as_slice());
    let mut plane = P::at_age(alloc, cells, age)?;
    let mut tries = TRIES;
    for n in 0..bound {
        plane.step(rule)?;
        if !falls_back(counts, n as usize + 1) {
            let later = plane.cells()?;
            if may_come_back::<P>(
                alloc,
                rule,
                cells,
                ends,
                &later,
                age + n + 1,
                bound,
                &mut tries,
            )? {
                return Ok(false);
            }
        }
    }
    Ok(true)
}
