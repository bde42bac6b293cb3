//! Cells of a set at most one away from a place.
ghost use Rattle.std.specs.Prelude.{◌≡◌, ℕ, ◌+◌, ◌-◌, ◌<◌, ◌≤◌, ◌^◌, int_lt, All, IfNone, IfOk, IfSome, IsTrue, T, true, false, get_or, length};
ghost use Rattle.life_model.specs.Cell.{Cell, IsNear, origin};
ghost use Rattle.life_model.specs.Generation.{contains, is_rising};
ghost use Rattle.life_cells.specs.Limits.{IsPlace};
ghost use Rattle.life_classes.specs.Tags.{place_number};
ghost use Rattle.life_islands.specs.Labels.{IsParting};
ghost use Rattle.life_tracks.specs.Frames.Bearers.{IsBearer, IsBetween, IsTouched};

use life_cells::CellList;
use life_classes::{ROW, place_number};
use life_islands::numbers;
use std::alloc::{AllocError, Global};

/// The number of places around the guessed one that are looked at.
const STEPS: usize = 12;

/// True if the cell just before a place has a smaller number than this one, or if there is no such cell.
#[inline(always)]
fn is_past(all: &[(i32, i32)], number: i64, at: usize) -> bool
    requires { at ≤ length all.now }
    ensures past { IsTrue result → (d : Cell) → 0 < at →
        int_lt (place_number (get_or all.now (at - 1) d)) number ≡ true }
    ensures some { result ≡ false → 0 < at }
{
    if at == 0 {
        return true;
    }
    place_number(all[at - 1]) < number
}

/// True if the cell at a place has a smaller number than this one.
#[inline(always)]
fn is_before(all: &[(i32, i32)], number: i64, at: usize) -> bool
    ensures not { result ≡ false → (d : Cell) → at < length all.now →
        int_lt (place_number (get_or all.now at d)) number ≡ false }
    ensures some { IsTrue result → at < length all.now }
{
    if at >= all.len() {
        return false;
    }
    place_number(all[at]) < number
}

/// The place before which the cells have smaller numbers than this one, if a few steps from the guess find it.
fn parting_near(all: &[(i32, i32)], number: i64, guess: usize) -> Option<usize>
    requires rising { T (is_rising all.now) }
    requires placed { All IsPlace all.now }
    ensures { IfSome result (IsParting all.now number) }
{
    let mut at = guess;
    if at > all.len() {
        at = all.len();
    }
    for _ in 0..STEPS {
        if !is_past(all, number, at) {
            at -= 1;
        } else if is_before(all, number, at) {
            at += 1;
        } else {
            return Some(at);
        }
    }
    None
}

/// The place before which the cells have smaller numbers than this one, found by binary search.
fn halved(all: &[(i32, i32)], number: i64) -> usize
    requires rising { T (is_rising all.now) }
    requires placed { All IsPlace all.now }
    ensures { IsParting all.now number result }
{
    all.partition_point(|one| place_number(*one) < number)
}

/// The place before which the cells have smaller numbers than this one. It is usually found near the guess, and
/// otherwise by binary search. It is the next guess.
pub fn parting(all: &[(i32, i32)], number: i64, guess: &mut usize) -> usize
    requires rising { T (is_rising all.now) }
    requires placed { All IsPlace all.now }
    ensures { IsParting all.now number result }
{
    let at = match parting_near(all, number, *guess) {
        Some(at) => at,
        None => halved(all, number),
    };
    *guess = at;
    at
}

/// The place of the first cell with a number from `low` to `high`. The search starts from a guess.
fn first_between(all: &[(i32, i32)], low: i64, high: i64, guess: &mut usize) -> Option<usize>
    requires rising { T (is_rising all.now) }
    requires placed { All IsPlace all.now }
    ensures some { IfSome result (IsBetween all.now low high) }
    ensures none { IfNone result ((n : ℕ) → IsBetween all.now low high n → ⊥) }
{
    let at = parting(all, low, guess);
    if at >= all.len() {
        return None;
    }
    if place_number(all[at]) > high {
        return None;
    }
    Some(at)
}

/// The place of the first cell with a number from `low` to `high`. The search starts where a cell of its row, whose
/// entry in the table is `row`, was last found.
fn first_in_row(
    all: &[(i32, i32)],
    low: i64,
    high: i64,
    near: &mut [usize],
    row: usize,
) -> Option<usize>
    requires rising { T (is_rising all.now) }
    requires placed { All IsPlace all.now }
    ensures some { IfSome result (IsBetween all.now low high) }
    ensures none { IfNone result ((n : ℕ) → IsBetween all.now low high n → ⊥) }
{
    match near.get_mut(row) {
        Some(guess) => first_between(all, low, high, guess),
        None => {
            let mut guess = 0;
            first_between(all, low, high, &mut guess)
        }
    }
}

/// The number of rows for which the table keeps where a cell was last found.
const ROWS: i32 = 256;

/// A new table of where a cell was last found in each of `ROWS` rows, with one more entry at each end. At first each
/// entry is an arbitrary guess.
pub fn rows(alloc: Global) -> Result<Vec<usize>, AllocError> {
    numbers(alloc, ROWS as usize + 2)
}

/// The place of a cell's row in the table. The rows above and below have the entries beside it, except at the ends of
/// the table.
#[inline(always)]
fn row_of(cell: (i32, i32)) -> usize
    ensures low { 0 < result }
    ensures high { result ≤ 2 ^ 8 }
{
    cell.1.rem_euclid(ROWS) as usize + 1
}

/// True if a set has a cell.
pub fn has(list: &CellList, cell: (i32, i32)) -> bool
    requires { IsPlace cell }
    ensures { result ≡ contains list.now cell }
{
    let number = place_number(cell);
    let mut guess = 0;
    match first_between(list.as_slice(), number, number, &mut guess) {
        Some(_) => true,
        None => false,
    }
}

/// The place of a cell of a set that is at most one away from this one: that of the cell itself, if the set has it. The
/// search starts where cells were last found, by a table of rows.
pub fn bearer(list: &CellList, cell: (i32, i32), near: &mut [usize]) -> usize
    requires placed { IsPlace cell }
    requires touched { IsTouched list.now cell }
    ensures { IsBearer list.now cell result }
{
    let all = list.as_slice();
    let number = place_number(cell);
    let row = row_of(cell);
    if let Some(at) = first_in_row(all, number, number, near, row) {
        return at;
    }
    if let Some(at) = first_in_row(all, number - 1, number + 1, near, row) {
        return at;
    }
    if let Some(at) = first_in_row(all, number - ROW - 1, number - ROW + 1, near, row - 1) {
        return at;
    }
    if let Some(at) = first_in_row(all, number + ROW - 1, number + ROW + 1, near, row + 1) {
        return at;
    }
    0
}
