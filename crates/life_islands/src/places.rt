//! The sets that a generation joins.
ghost use Rattle.std.specs.Prelude.{◌≡◌, ℕ, ◌<◌, ◌-◌, ◌^◌, ◌≤ℤ◌, ◌+ℤ◌, pos, IfOk, OnOk, false, get_or, length};
ghost use Rattle.std.specs.Bool.{OnTrue};
ghost use Rattle.life_model.specs.Cell.{origin};
ghost use Rattle.life_model.specs.Generation.{contains};
ghost use Rattle.life_model.specs.Generation as generations;
ghost use Rattle.life_parts.specs.Parts.Apart.{AreHeldApart};
ghost use Rattle.life_classes.specs.Tags.{place_number};
ghost use Rattle.life_classes.specs.Forest.{root};
ghost use Rattle.life_islands.specs.Labels.{AreJoinedFurther, Fits, KeepsTied, sets_of};
ghost use Rattle.life_islands.specs.Reach.{IsInReach, IsWithinTwo};
ghost use Rattle.life_islands.specs.Splits.{AreLaidOut, IsSettled, IsSettledNear};

use crate::around::neighbour;
use crate::colours::AROUND;
use crate::labels::{Labels, has_in_row, parting};
use crate::seating::{ROWS, link_at, row_of, seats_around};
use crate::touching::{islands, join_touching};
use life_cells::{CellList, Rule};
use life_classes::{ROW, join, place_number};
use std::alloc::{AllocError, Global};

/// Joins two of the sets that a place joins, if the place is none of the cells. Its row has this number.
fn join_place(
    rule: &Rule,
    list: &CellList,
    isles: &Labels,
    sets: &mut Labels,
    place: (i32, i32),
    near: &mut [usize],
    row: usize,
) -> bool
    requires reach { IsInReach place }
    requires isles { Fits list.now isles.now }
    requires sets { Fits list.now sets.old }
    requires laid_out { AreLaidOut list.now (sets_of list.now isles.now) (sets_of list.now sets.old) }
    ensures further { AreJoinedFurther sets.old sets.new result }
    ensures tied { KeepsTied rule.now list.now sets.old sets.new }
    ensures settled { result ≡ false → contains list.now place ≡ false →
        IsSettled rule.now list.now (sets_of list.now sets.new) place }
{
    if has_in_row(list, place, near, row) {
        return false;
    }
    let seats = seats_around(list, isles, sets, place, near, row);
    match link_at(rule, &seats) {
        Some((one, other)) => join(&mut sets.forest, one, other),
        None => false,
    }
}

/// The places where cells of each of the five rows around a cell were last looked up.
#[derive(Drop)]
struct Starts {
    further: usize,
    above: usize,
    level: usize,
    below: usize,
    beyond: usize,
}

impl Starts {
    fn new() -> Starts {
        Starts {
            further: 0,
            above: 0,
            level: 0,
            below: 0,
            beyond: 0,
        }
    }
}

/// True if all cells whose numbers are from `low` to `low + 4` have a mark. They are looked for near a guessed place first.
fn row_has(list: &CellList, sets: &Labels, low: i64, mark: usize, guess: &mut usize) -> bool
    requires fits { Fits list.now sets.now }
    requires low { low ≤ℤ pos (2 ^ 63 - 5) }
    ensures { OnTrue result ((k : ℕ) → k < length (generations.cells list.now) →
        low ≤ℤ place_number (get_or (generations.cells list.now) k origin) →
        place_number (get_or (generations.cells list.now) k origin) ≤ℤ (low +ℤ pos 4) →
        root sets.now.forest.items (get_or sets.now.labels.items k 0) ≡ mark) }
{
    let cells = list.as_slice();
    let start = parting(cells, low, *guess);
    *guess = start;
    for at in start..cells.len() {
        if place_number(cells[at]) > low + 4 {
            return true;
        }
        if sets.mark(at) != mark {
            return false;
        }
    }
    true
}

/// True if all cells at most two away from the cell at place `n` have its mark.
fn is_of_one(list: &CellList, sets: &Labels, n: usize, starts: &mut Starts) -> bool
    requires fits { Fits list.now sets.now }
    requires within { n < length (generations.cells list.now) }
    ensures { OnTrue result ((k : ℕ) → k < length (generations.cells list.now) →
        IsWithinTwo (get_or (generations.cells list.now) k origin) (get_or (generations.cells list.now) n origin) →
        root sets.now.forest.items (get_or sets.now.labels.items k 0) ≡ root sets.now.forest.items (get_or sets.now.labels.items n 0)) }
{
    let mark = sets.mark(n);
    let low = place_number(list.as_slice()[n]) - 2;
    if !row_has(list, sets, low - 2 * ROW, mark, &mut starts.further) {
        return false;
    }
    if !row_has(list, sets, low - ROW, mark, &mut starts.above) {
        return false;
    }
    if !row_has(list, sets, low, mark, &mut starts.level) {
        return false;
    }
    if !row_has(list, sets, low + ROW, mark, &mut starts.below) {
        return false;
    }
    if !row_has(list, sets, low + 2 * ROW, mark, &mut starts.beyond) {
        return false;
    }
    true
}

/// Joins sets that a place around the cell at place `n` of a list joins.
fn join_around(
    rule: &Rule,
    list: &CellList,
    isles: &Labels,
    sets: &mut Labels,
    n: usize,
    starts: &mut Starts,
    near: &mut [usize],
) -> bool
    requires isles { Fits list.now isles.now }
    requires sets { Fits list.now sets.old }
    requires within { n < length (generations.cells list.now) }
    requires laid_out { AreLaidOut list.now (sets_of list.now isles.now) (sets_of list.now sets.old) }
    ensures further { AreJoinedFurther sets.old sets.new result }
    ensures tied { KeepsTied rule.now list.now sets.old sets.new }
    ensures settled { result ≡ false → IsSettledNear rule.now list.now (sets_of list.now sets.new)
        (get_or (generations.cells list.now) n origin) }
{
    if is_of_one(list, sets, n, starts) {
        return false;
    }
    let cell = list.as_slice()[n];
    let mut joined = false;
    for number in 0..AROUND {
        let row = row_of(ROWS / 2, number);
        if join_place(rule, list, isles, sets, neighbour(cell, number), near, row) {
            joined = true;
        }
    }
    joined
}

/// Joins the sets that places join. Each place around each cell is looked at once.
fn join_places(rule: &Rule, list: &CellList, isles: &Labels, sets: &mut Labels) -> bool
    requires isles { Fits list.now isles.now }
    requires sets { Fits list.now sets.old }
    requires laid_out { AreLaidOut list.now (sets_of list.now isles.now) (sets_of list.now sets.old) }
    ensures further { AreJoinedFurther sets.old sets.new result }
    ensures tied { KeepsTied rule.now list.now sets.old sets.new }
    ensures held { result ≡ false → AreHeldApart rule.now list.now (sets_of list.now sets.new) }
{
    let mut joined = false;
    let mut starts = Starts::new();
    let mut near = [0; ROWS];
    for n in 0..list.len() {
        if join_around(rule, list, isles, sets, n, &mut starts, &mut near) {
            joined = true;
        }
    }
    joined
}

/// True if all cells at most two away from each cell have its mark.
fn are_of_one(list: &CellList, sets: &Labels) -> bool
    requires { Fits list.now sets.now }
    ensures { OnTrue result ((n : ℕ) → n < length (generations.cells list.now) →
        (k : ℕ) → k < length (generations.cells list.now) →
        IsWithinTwo (get_or (generations.cells list.now) k origin) (get_or (generations.cells list.now) n origin) →
        root sets.now.forest.items (get_or sets.now.labels.items k 0) ≡ root sets.now.forest.items (get_or sets.now.labels.items n 0)) }
{
    let mut starts = Starts::new();
    for n in 0..list.len() {
        if !is_of_one(list, sets, n, &mut starts) {
            return false;
        }
    }
    true
}

/// True if all labels have one root.
fn is_one(sets: &Labels) -> bool
    ensures { OnTrue result ((k : ℕ) → k < length sets.now.labels.items →
        root sets.now.forest.items (get_or sets.now.labels.items k 0) ≡
        root sets.now.forest.items (get_or sets.now.labels.items 0 0)) }
{
    for n in 1..sets.labels.len() {
        if sets.mark(n) != sets.mark(0) {
            return false;
        }
    }
    true
}

/// Joins the sets that a generation joins, until all sets are held apart. All cells of the generation are listed. Returns false
/// if the sets were held apart already.
pub fn join_in(
    alloc: Global,
    rule: &Rule,
    list: &CellList,
    sets: &mut Labels,
) -> Result<bool, AllocError>
    requires { Fits list.now sets.old }
    ensures further { IfOk result (AreJoinedFurther sets.old sets.new) }
    ensures tied { KeepsTied rule.now list.now sets.old sets.new }
    ensures held { OnOk result (AreHeldApart rule.now list.now (sets_of list.now sets.new)) }
{
    let mut joined = join_touching(list, sets);
    if is_one(sets) {
        return Ok(joined);
    }
    if are_of_one(list, sets) {
        return Ok(joined);
    }
    let isles = islands(alloc, list)?;
    while join_places(rule, list, &isles, sets) {
        joined = true;
    }
    Ok(joined)
}
