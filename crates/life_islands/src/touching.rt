//! Joining cells that touch.
ghost use Rattle.std.specs.Prelude.{◌≡◌, ℕ, ◌<◌, IfOk, length};
ghost use Rattle.life_model.specs.Generation.{cells};
ghost use Rattle.life_islands.specs.Labels.{AreJoinedByTouch, AreJoinedFurther, AreJoinedWithin, AreNumbered, Fits, HasMet, KeepsTied, sets_of};
ghost use Rattle.life_islands.specs.Splits.{AreIslands, AreOfWholeIslands};
ghost use Rattle.life_model.specs.Rule.{Rule};

use crate::around::neighbour;
use crate::labels::{Labels, index_near};
use life_cells::CellList;
use life_classes::join;
use std::alloc::{AllocError, Global};

/// The number of the cells around a cell that come before it.
const BEFORE: usize = 4;

/// The number of these that are in the row above.
const ABOVE: usize = 3;

/// The place where one of the cells around the cell at place `n` is looked for first: the place where one of the row
/// above was last looked up, or the one right before the cell.
fn guess(n: usize, number: usize, above: usize) -> usize {
    if number < ABOVE {
        return above;
    }
    n.saturating_sub(1)
}

/// Keeps the place where a cell of the row above was looked up.
fn keep(above: &mut usize, number: usize, guess: usize) {
    if number < ABOVE {
        *above = guess;
    }
}

/// Joins the cell at place `n` with the one of those around it that has this number, if it is live.
fn join_neighbour(
    list: &CellList,
    all: &mut Labels,
    n: usize,
    number: usize,
    above: &mut usize,
) -> bool
    requires fits { Fits list.now all.old }
    requires within { n < length (cells list.now) }
    requires before { number < 4 }
    ensures touched { AreJoinedByTouch list.now all.old all.new result }
    ensures met { HasMet list.now all.new n number }
{
    let cells = list.as_slice();
    let mut near = guess(n, number, *above);
    match index_near(list, neighbour(cells[n], number), &mut near) {
        Some(at) => {
            keep(above, number, near);
            join(&mut all.forest, all.labels[n], all.labels[at])
        }
        None => {
            keep(above, number, near);
            false
        }
    }
}

/// Joins the cell at place `n` with those around it that come before it.
fn join_before(list: &CellList, all: &mut Labels, n: usize, above: &mut usize) -> bool
    requires fits { Fits list.now all.old }
    requires within { n < length (cells list.now) }
    ensures touched { AreJoinedByTouch list.now all.old all.new result }
    ensures met { (number : ℕ) → number < 4 → HasMet list.now all.new n number }
{
    let mut joined = false;
    for number in 0..BEFORE {
        if join_neighbour(list, all, n, number, above) {
            joined = true;
        }
    }
    joined
}

/// Joins cells that touch. Returns false if they were joined already.
pub fn join_touching(list: &CellList, all: &mut Labels) -> bool
    requires { Fits list.now all.old }
    ensures further { AreJoinedFurther all.old all.new result }
    ensures whole { AreOfWholeIslands list.now (sets_of list.now all.new) }
    ensures tied { (R : Rule) → KeepsTied R list.now all.old all.new }
    ensures joined { AreJoinedWithin list.now all.old → AreJoinedWithin list.now all.new }
{
    let mut joined = false;
    let mut above = 0;
    for n in 0..list.len() {
        if join_before(list, all, n, &mut above) {
            joined = true;
        }
    }
    joined
}

/// The islands of a set.
pub fn islands(alloc: Global, list: &CellList) -> Result<Labels, AllocError>
    ensures { IfOk result (λ isles. AreNumbered list.now isles
        × AreIslands list.now (sets_of list.now isles)) }
{
    let mut isles = Labels::each(alloc, list)?;
    join_touching(list, &mut isles);
    Ok(isles)
}
