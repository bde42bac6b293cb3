//! Cells with labels, some of which are joined.
ghost use Rattle.std.specs.Prelude.{◌≡◌, ◌-◌, ◌≤◌, int_lt, true, ◌<◌, All, IfNone, IfOk, IfSome, IsTrue, T, false, get_or, length};
ghost use Rattle.std.specs.List.{range_with_len};
ghost use Rattle.life_model.specs.Cell.{Cell, origin};
ghost use Rattle.life_model.specs.Generation.{cells, contains, is_rising};
ghost use Rattle.life_cells.specs.Limits.{IsPlace};
ghost use Rattle.life_classes.specs.Tags.{place_number};
ghost use Rattle.life_classes.specs.Forest.{root};
ghost use Rattle.life_islands.specs.Labels.{AreNumbered, IsParting};

use life_cells::CellList;
use life_classes::{place_number, root};
use std::alloc::{AllocError, Global};

/// A label for each cell of a generation, in their order, and the labels that are joined.
#[derive(Drop)]
pub struct Labels {
    pub labels: Vec<usize>,
    pub forest: Vec<usize>,
}

/// The first `count` numbers, from 0 on.
pub fn numbers(alloc: Global, count: usize) -> Result<Vec<usize>, AllocError>
    ensures { IfOk result (λ all. all.items ≡ range_with_len 0 count) }
{
    let mut all = Vec::with_capacity(alloc, count)?;
    for n in 0..count {
        all.push(n)?;
    }
    Ok(all)
}

/// The number of places from the guessed one on that are looked at.
const STEPS: usize = 3;

/// True if the cell right before a place has a lesser number than this one, or if there is none.
fn is_past(all: &[(i32, i32)], number: i64, at: usize) -> bool
    requires { at ≤ length all.now }
    ensures { IsTrue result → (d : Cell) → 0 < at →
        int_lt (place_number (get_or all.now (at - 1) d)) number ≡ true }
{
    if at == 0 {
        return true;
    }
    place_number(all[at - 1]) < number
}

/// True if the cell at a place has a lesser number than this one.
fn is_before(all: &[(i32, i32)], number: i64, at: usize) -> bool
    ensures { result ≡ false → (d : Cell) → at < length all.now →
        int_lt (place_number (get_or all.now at d)) number ≡ false }
{
    if at >= all.len() {
        return false;
    }
    place_number(all[at]) < number
}

/// True if the cells before a place have lesser numbers than this one, and those from it on do not.
fn parts_at(all: &[(i32, i32)], number: i64, at: usize) -> bool
    requires rising { T (is_rising all.now) }
    requires placed { All IsPlace all.now }
    ensures { IsTrue result → IsParting all.now number at }
{
    if at > all.len() {
        return false;
    }
    if is_before(all, number, at) {
        return false;
    }
    is_past(all, number, at)
}

/// The place before which the cells have lesser numbers than this one. It is found quickly if it is the guessed place or one of
/// the next few, and otherwise by binary search.
pub fn parting(all: &[(i32, i32)], number: i64, guess: usize) -> usize
    requires rising { T (is_rising all.now) }
    requires placed { All IsPlace all.now }
    ensures { IsParting all.now number result }
{
    for more in 0..STEPS {
        let at = guess.saturating_add(more);
        if parts_at(all, number, at) {
            return at;
        }
    }
    all.partition_point(|one| place_number(*one) < number)
}

/// The place of a cell in a list of cells. It is found quickly near the guessed place. The place where it was looked up is the
/// next guess.
pub fn index_near(list: &CellList, cell: (i32, i32), guess: &mut usize) -> Option<usize>
    ensures some { IfSome result
        (λ n. n < length (cells list.now) × get_or (cells list.now) n origin ≡ cell) }
    ensures none { IfNone result (contains list.now cell ≡ false) }
{
    let all = list.as_slice();
    let at = parting(all, place_number(cell), *guess);
    *guess = at;
    if at < all.len() && all[at] == cell {
        return Some(at);
    }
    None
}

/// The place of a cell in a list of cells. It is looked up near where a cell of its row, which has this number, was last looked
/// up.
pub fn index_in_row(
    list: &CellList,
    cell: (i32, i32),
    near: &mut [usize],
    row: usize,
) -> Option<usize>
    ensures some { IfSome result
        (λ n. n < length (cells list.now) × get_or (cells list.now) n origin ≡ cell) }
    ensures none { IfNone result (contains list.now cell ≡ false) }
{
    match near.get_mut(row) {
        Some(guess) => index_near(list, cell, guess),
        None => index_of(list, cell),
    }
}

/// The place of a cell in a list of cells.
pub fn index_of(list: &CellList, cell: (i32, i32)) -> Option<usize>
    ensures some { IfSome result
        (λ n. n < length (cells list.now) × get_or (cells list.now) n origin ≡ cell) }
    ensures none { IfNone result (contains list.now cell ≡ false) }
{
    let mut guess = list.len() / 2;
    index_near(list, cell, &mut guess)
}

/// True if a set has a cell, which is looked up near where one of its row, which has this number, was last looked up.
pub fn has_in_row(list: &CellList, cell: (i32, i32), near: &mut [usize], row: usize) -> bool
    ensures { result ≡ contains list.now cell }
{
    match index_in_row(list, cell, near, row) {
        Some(_) => true,
        None => false,
    }
}

impl Labels {
    /// The labels where each cell has its place as its label, and none are joined.
    pub fn each(alloc: Global, list: &CellList) -> Result<Labels, AllocError>
        ensures { IfOk result (λ all. AreNumbered list.now all
            × all.forest.items ≡ range_with_len 0 (length (cells list.now))) }
    {
        let count = list.len();
        Ok(Labels {
            labels: numbers(alloc, count)?,
            forest: numbers(alloc, count)?,
        })
    }

    /// The root of the label of the cell at a place.
    pub fn mark(&self, n: usize) -> usize
        requires { n < length self.now.labels.items }
        ensures { result ≡ root self.now.forest.items (get_or self.now.labels.items n 0) }
    {
        root(self.forest.as_slice(), self.labels[n])
    }
}
