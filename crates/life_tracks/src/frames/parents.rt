//! The classes of a generation that bear the classes of the next.
ghost use Rattle.std.specs.Prelude.{◌≡◌, ◌≢◌, ℕ, ◌<◌, IfOk, get_or, length, true};
ghost use Rattle.std.specs.List.{All, Contains};
ghost use Rattle.life_model.specs.Cell.{Cell, origin};
ghost use Rattle.life_model.specs.Generation.{Generation, cells, contains, empty};
ghost use Rattle.life_cells.specs.Limits.{IsPlace};
ghost use Rattle.life_objects.specs.Union.{union_of};
ghost use Rattle.life_tracks.specs.Frames.Bearers.{IsTouched};
ghost use Rattle.life_tracks.specs.Frames.Frames.{IsBeside};
ghost use Rattle.life_tracks.specs.Frames.Ties.{AreTouched};

use crate::frames::bearers::{bearer, has, rows};
use life_cells::CellList;
use life_classes::root;
use std::alloc::{AllocError, Global};

/// For each place of a forest, the number of roots before it. If classes come in the order of their roots, that is,
/// for a root, the place of its class. Correctness does not depend on it.
fn class_places(alloc: Global, forest: &[usize]) -> Result<Vec<usize>, AllocError> {
    let mut places = Vec::with_capacity(alloc, forest.len())?;
    let mut count: usize = 0;
    for n in 0..forest.len() {
        places.push(count)?;
        if forest[n] == n {
            count = count.saturating_add(1);
        }
    }
    Ok(places)
}

/// The place of the class that has a cell. The guessed place is checked first.
fn class_of(classes: &[CellList], cell: (i32, i32), guess: usize) -> usize
    requires placed { IsPlace cell }
    requires some { contains (union_of classes.now) cell ≡ true }
    ensures within { result < length classes.now }
    ensures has { contains (get_or classes.now result empty) cell ≡ true }
{
    if guess < classes.len() {
        if has(&classes[guess], cell) {
            return guess;
        }
    }
    for n in 0..classes.len() {
        if has(&classes[n], cell) {
            return n;
        }
    }
    0
}

/// The entry at a place of a table, or 0 beyond its end.
fn guess_at(class_places: &[usize], place: usize) -> usize {
    match class_places.get(place) {
        Some(guess) => *guess,
        None => 0,
    }
}

/// The place of the class that bears a set. Cells are looked up where they were last found, by a table of rows.
fn parent(
    list: &CellList,
    forest: &[usize],
    classes: &[CellList],
    set: &CellList,
    class_places: &[usize],
    near: &mut [usize],
) -> usize
    requires some { set.now ≢ empty }
    requires touched { (c : Cell) → contains set.now c ≡ true → IsTouched list.now c }
    requires together { union_of classes.now ≡ list.now }
    ensures { IsBeside list.now classes.now set.now result }
{
    let cells = set.as_slice();
    if cells.len() == 0 {
        return 0;
    }
    let all = list.as_slice();
    let at = bearer(list, cells[0], near);
    class_of(classes, all[at], guess_at(class_places, root(forest, at)))
}

/// The places of the classes that bear the sets.
pub fn parents(
    alloc: Global,
    list: &CellList,
    forest: &[usize],
    classes: &[CellList],
    later: &[CellList],
) -> Result<Vec<usize>, AllocError>
    requires some { All (λ Q. Q ≢ empty) later.now }
    requires touched { AreTouched list.now later.now }
    requires together { union_of classes.now ≡ list.now }
    ensures count { IfOk result (λ places. length places.items ≡ length later.now) }
    ensures each { IfOk result (λ places. (j : ℕ) → j < length later.now →
        IsBeside list.now classes.now (get_or later.now j empty) (get_or places.items j 0)) }
{
    let mut places = Vec::with_capacity(alloc, later.len())?;
    let class_places = class_places(alloc, forest)?;
    let mut near = rows(alloc)?;
    for n in 0..later.len() {
        let place = parent(
            list,
            forest,
            classes,
            &later[n],
            class_places.as_slice(),
            near.as_mut_slice(),
        );
        places.push(place)?;
    }
    Ok(places)
}
