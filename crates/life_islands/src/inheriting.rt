//! The labels of the cells of the next generation.
ghost use Rattle.std.specs.Prelude.{◌≡◌, ℕ, ◌<◌, All, IfOk, IfSome, true, get_or, length};
ghost use Rattle.life_model.specs.Cell.{Cell, origin, plus};
ghost use Rattle.life_model.specs.Evolution.{next};
ghost use Rattle.life_model.specs.Generation.{cells, contains};
ghost use Rattle.life_parts.specs.Parts.Apart.{AreHeldApart};
ghost use Rattle.life_islands.specs.Heirs.{AreHeirs, IsHeir};
ghost use Rattle.life_islands.specs.Labels.{Fits, sets_of};
ghost use Rattle.life_islands.specs.Reach.{IsInReach};

use crate::colours::first_bearing;
use crate::labels::{Labels, index_near};
use crate::seating::{ROWS, colours_of, seats_around};
use life_cells::{CellList, Rule};
use std::alloc::{AllocError, Global};

/// The label of a cell of the next generation: its own if it survives, and otherwise that of a cell of the set that bears it.
/// The cell is looked up near where the one before it was found, and the cells around it near where cells were last looked up
/// in their rows.
fn heir(
    rule: &Rule,
    list: &CellList,
    sets: &Labels,
    place: (i32, i32),
    guess: &mut usize,
    near: &mut [usize; ROWS],
) -> usize
    requires fits { Fits list.now sets.now }
    requires held { AreHeldApart rule.now list.now (sets_of list.now sets.now) }
    requires live { contains (next rule.now list.now) place ≡ true }
    ensures { IsHeir rule.now list.now sets.now place result }
{
    if let Some(at) = index_near(list, place, guess) {
        return sets.labels[at];
    }
    // A cell of the next generation is near one of the list, and so in reach.
    let _cells = list.as_slice();
    near[ROWS / 2] = *guess;
    let seats = seats_around(list, sets, sets, place, near, ROWS / 2);
    let colours = colours_of(&seats);
    let bearing = first_bearing(rule, &seats, &colours);
    seats[bearing].set
}

/// The cell moved.
fn moved(cell: (i32, i32), by: (i32, i32)) -> (i32, i32)
    requires { IsInReach (plus cell by) }
    ensures { result ≡ plus cell by }
{
    (cell.0 + by.0, cell.1 + by.1)
}

/// The labels of cells that, moved, are live in the next generation.
pub fn heirs(
    alloc: Global,
    rule: &Rule,
    list: &CellList,
    sets: Labels,
    later: &CellList,
    by: (i32, i32),
) -> Result<Labels, AllocError>
    requires fits { Fits list.now sets }
    requires held { AreHeldApart rule.now list.now (sets_of list.now sets) }
    requires live { (c : Cell) → contains later.now c ≡ true → contains (next rule.now list.now) (plus c by) ≡ true }
    ensures fits { IfOk result (Fits later.now) }
    ensures forest { IfOk result (λ all. all.forest ≡ sets.forest) }
    ensures heirs { IfOk result (λ all. AreHeirs rule.now list.now sets by later.now all) }
{
    let _cells = list.as_slice();
    let mut labels = Vec::with_capacity(alloc, later.len())?;
    let mut guess = 0;
    let mut near = [0; ROWS];
    for cell in later.as_slice() {
        let place = moved(*cell, by);
        labels.push(heir(rule, list, &sets, place, &mut guess, &mut near))?;
    }
    Ok(Labels {
        labels,
        forest: sets.forest,
    })
}
