//! The next generation of a list of cells.
ghost use Rattle.std.specs.Prelude.{◌≡◌, ℕ, ◌+◌, ◌<◌, ◌≤◌, ◌++◌, All, IfOk, cond, T, length, take, flat_map};
ghost use Rattle.std.specs.Ordering.{is_lt};
ghost use Rattle.life_model.specs.Cell.{Cell, around, cell_cmp, plus};
ghost use Rattle.life_model.specs.Evolution.{count_at, lives, next};
ghost use Rattle.life_model.specs.Generation.{from_list, is_rising};
ghost use Rattle.life_cells.specs.Limits.{IsWithin, age_limit};
ghost use Rattle.life_plane.specs.Field.{HasReached, IsBehind, IsStep, candidates_of, has};

use life_cells::{Rule, put_in_order};
use std::alloc::{AllocError, Global};
use std::cmp::Ordering;

/// The places where the cells above, beside and below the last cell were found. The next search goes from there to
/// either side, so that cells that are looked up in order take few steps each.
#[derive(Drop)]
struct Cursors {
    above: usize,
    level: usize,
    below: usize,
}

/// True where one cell comes before another in the order of cells.
fn comes_before(cell: (i32, i32), other: (i32, i32)) -> bool
    ensures { result ≡ is_lt (cell_cmp cell other) }
{
    match cell.1.cmp(&other.1) {
        Ordering::Less => true,
        Ordering::Equal => cell.0 < other.0,
        Ordering::Greater => false,
    }
}

/// Walks back until the cell before the place, if there is one, comes before this cell.
fn walked_back(cells: &[(i32, i32)], from: usize, place: (i32, i32)) -> usize
    requires { from ≤ length cells.now }
    ensures bound { result ≤ length cells.now }
    ensures behind { IsBehind cells.now result place }
{
    let mut at = from;
    while at > 0 {
        if comes_before(cells[at - 1], place) {
            return at;
        }
        at -= 1;
    }
    at
}

/// Walks on to the first cell that does not come before this one.
fn walked_on(cells: &[(i32, i32)], from: usize, place: (i32, i32)) -> usize
    requires bound { from ≤ length cells.now }
    requires behind { IsBehind cells.now from place }
    ensures bound { result ≤ length cells.now }
    ensures behind { IsBehind cells.now result place }
    ensures reached { HasReached cells.now result place }
{
    let mut at = from;
    while at < cells.len() {
        if !comes_before(cells[at], place) {
            return at;
        }
        at += 1;
    }
    at
}

/// True where the list, which is in order, has this cell.
pub fn is_live(cells: &[(i32, i32)], cursor: &mut usize, place: (i32, i32)) -> bool
    requires { T (is_rising cells.now) }
    ensures { result ≡ has cells.now place }
{
    let at = walked_on(
        cells,
        walked_back(cells, cells.len().min(*cursor), place),
        place,
    );
    *cursor = at;
    at < cells.len() && !comes_before(place, cells[at])
}

/// The cell one step away.
fn beside(cell: (i32, i32), step: (i32, i32)) -> (i32, i32)
    requires within { IsWithin (age_limit + 1) cell }
    requires step { IsStep step }
    ensures { result ≡ plus cell step }
{
    (cell.0 + step.0, cell.1 + step.1)
}

/// 1 if the cell one step away is live, and 0 if not.
fn live_at(cells: &[(i32, i32)], cursor: &mut usize, cell: (i32, i32), step: (i32, i32)) -> u32
    requires rising { T (is_rising cells.now) }
    requires within { IsWithin (age_limit + 1) cell }
    requires step { IsStep step }
    ensures value { result ≡ cond (has cells.now (plus cell step)) 1 0 }
    ensures few { result ≤ 1 }
{
    u32::from(is_live(cells, cursor, beside(cell, step)))
}

/// The number of live cells among the eight around a cell.
fn count(cells: &[(i32, i32)], cursors: &mut Cursors, cell: (i32, i32)) -> u32
    requires rising { T (is_rising cells.now) }
    requires within { IsWithin (age_limit + 1) cell }
    ensures value { result ≡ count_at (has cells.now) cell }
    ensures few { result ≤ 8 }
{
    let above = live_at(cells, &mut cursors.above, cell, (-1, -1))
        + live_at(cells, &mut cursors.above, cell, (0, -1))
        + live_at(cells, &mut cursors.above, cell, (1, -1));
    let level = live_at(cells, &mut cursors.level, cell, (-1, 0))
        + live_at(cells, &mut cursors.level, cell, (1, 0));
    let below = live_at(cells, &mut cursors.below, cell, (-1, 1))
        + live_at(cells, &mut cursors.below, cell, (0, 1))
        + live_at(cells, &mut cursors.below, cell, (1, 1));
    above + level + below
}

/// True where a cell is live in the next generation.
fn lives_next(rule: &Rule, cells: &[(i32, i32)], cursors: &mut Cursors, cell: (i32, i32)) -> bool
    requires rising { T (is_rising cells.now) }
    requires within { IsWithin (age_limit + 1) cell }
    ensures { result ≡ lives rule.now (has cells.now) cell }
{
    let neighbours = count(cells, cursors, cell);
    if is_live(cells, &mut cursors.level, cell) {
        rule.stays(neighbours)
    } else {
        rule.born(neighbours)
    }
}

/// The cells that may be live next: those that are live, and those around them.
fn candidates(alloc: Global, cells: &[(i32, i32)]) -> Result<Vec<(i32, i32)>, AllocError>
    requires { All (IsWithin age_limit) cells.now }
    ensures { IfOk result (λ all. all.items ≡ candidates_of cells.now) }
{
    let mut all = cells.to_vec(alloc)?;
    for cell in cells {
        all.extend_from_slice(&[
            beside(*cell, (-1, -1)),
            beside(*cell, (0, -1)),
            beside(*cell, (1, -1)),
            beside(*cell, (-1, 0)),
            beside(*cell, (1, 0)),
            beside(*cell, (-1, 1)),
            beside(*cell, (0, 1)),
            beside(*cell, (1, 1)),
        ])?;
    }
    Ok(all)
}

/// The cells of the next generation, in order.
pub fn next_cells(
    alloc: Global,
    rule: &Rule,
    cells: &[(i32, i32)],
) -> Result<Vec<(i32, i32)>, AllocError>
    requires rising { T (is_rising cells.now) }
    requires within { All (IsWithin age_limit) cells.now }
    ensures rising { IfOk result (λ next. T (is_rising next.items)) }
    ensures next { IfOk result
        (λ later. from_list later.items ≡ next rule.now (from_list cells.now)) }
    ensures within { IfOk result
        (λ next. (a : ℕ) → All (IsWithin a) cells.now → All (IsWithin (a + 1)) next.items) }
{
    let mut all = candidates(alloc, cells)?;
    put_in_order(&mut all);
    let mut cursors = Cursors {
        above: 0,
        level: 0,
        below: 0,
    };
    let mut next = Vec::new(alloc);
    for cell in &all {
        if lives_next(rule, cells, &mut cursors, *cell) {
            next.push(*cell)?;
        }
    }
    Ok(next)
}
