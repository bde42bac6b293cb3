//! Joining the labels of cells that are near each other.
ghost use Rattle.std.specs.Prelude.{◌≡◌, ◌+◌, ◌-◌, ◌≤◌, ◌<◌, ◌^◌, ◌+ℤ◌, ◌-ℤ◌, ◌≤ℤ◌, All, neg_ℤ, pos, length, get_or};
ghost use Rattle.life_classes.specs.declared.tags.Tag.{Tag as ModelTag};
ghost use Rattle.life_classes.specs.Labels.{AreLabelled, AreNearAt, IsTagged};
ghost use Rattle.life_classes.specs.Tags.{AreFrom, AreLess};
ghost use Rattle.life_classes.specs.Ties.{AreNearOne, AreOne, AreOneOrListed, AreTiedUpTo, IsRowsAway, IsTied, IsTiedAfter, IsTiedAround, IsTiedAt};

use crate::forest::join;
use crate::labels::Labelled;
use crate::tags::{ROW, place_of};

/// If more than one in `MANY` cells is born, it is quicker to visit all cells.
const MANY: usize = 4;

/// The places where the last searches for near tags ended, in the two rows above a cell.
#[derive(Drop)]
struct Cursors {
    above: usize,
    further: usize,
}

/// The places where the last searches for near tags ended, in the two rows below a cell.
#[derive(Drop)]
struct CursorsBelow {
    below: usize,
    beyond: usize,
}

/// Joins the labels of two cells that are near each other.
#[inline(always)]
fn tie(forest: &mut Vec<usize>, cells: &Labelled, one: usize, other: usize)
    requires labelled { AreLabelled cells.now forest.old.items }
    requires one { one < length cells.now.tags.items }
    requires other { other < length cells.now.tags.items }
    requires near { AreNearAt cells.now one other }
    ensures tied { IsTied cells.now forest.old.items forest.new.items }
    ensures one { AreOne cells.now.tags.items forest.new.items one other }
{
    let first = cells.tags[one].label;
    let second = cells.tags[other].label;
    if first != second {
        join(forest, first, second);
    }
}

/// The number of the cell at place `n`.
#[inline(always)]
fn number_at(cells: &Labelled, n: usize) -> i64
    requires tagged { IsTagged cells.now }
    requires inside { n < length cells.now.tags.items }
    ensures same { (d : ModelTag) → result ≡ (get_or cells.now.tags.items n d).number }
    ensures low { neg_ℤ (pos (2 ^ 62 + 2 ^ 31)) ≤ℤ result }
    ensures high { result ≤ℤ pos (2 ^ 62 + 2 ^ 31) }
{
    cells.tags[n].number
}

/// Joins the label of the cell at `n`, which has this number, with that of the cell before it, if that one is near.
#[inline(always)]
fn tie_before(forest: &mut Vec<usize>, cells: &Labelled, n: usize, number: i64)
    requires labelled { AreLabelled cells.now forest.old.items }
    requires inside { n < length cells.now.tags.items }
    requires same { (d : ModelTag) → number ≡ (get_or cells.now.tags.items n d).number }
    requires low { neg_ℤ (pos (2 ^ 62 + 2 ^ 31)) ≤ℤ number }
    ensures tied { IsTied cells.now forest.old.items forest.new.items }
    ensures before { (d : ModelTag) → 0 < n →
        ((get_or cells.now.tags.items n d).number -ℤ pos 2) ≤ℤ (get_or cells.now.tags.items (n - 1) d).number →
        AreOne cells.now.tags.items forest.new.items (n - 1) n }
{
    if n == 0 {
        return;
    }
    let tags = cells.tags.as_slice();
    if tags[n - 1].number < number - 2 {
        return;
    }
    tie(forest, cells, n - 1, n);
}

/// Joins the label of the cell at `n` with that of the cell at `at`, if that one is near. The cell at `at` is the first
/// whose number is not less than `number`.
#[inline(always)]
fn tie_next(forest: &mut Vec<usize>, cells: &Labelled, n: usize, number: i64, at: usize)
    requires labelled { AreLabelled cells.now forest.old.items }
    requires inside { n < length cells.now.tags.items }
    requires away { IsRowsAway cells.now.tags.items n number }
    requires low { neg_ℤ (pos (2 ^ 62 + 2 ^ 33)) ≤ℤ number }
    requires high { number ≤ℤ pos (2 ^ 62 + 2 ^ 33) }
    requires least { AreFrom cells.now.tags.items at number }
    ensures tied { IsTied cells.now forest.old.items forest.new.items }
    ensures next { (d : ModelTag) → at < length cells.now.tags.items →
        (get_or cells.now.tags.items at d).number ≤ℤ (number +ℤ pos 2) →
        AreOne cells.now.tags.items forest.new.items at n }
{
    let tags = cells.tags.as_slice();
    if at >= tags.len() {
        return;
    }
    if tags[at].number > number + 2 {
        return;
    }
    tie(forest, cells, at, n);
}

/// Joins the label of the cell at `n` with that of the cell before `at`, if that one is near. The cell before `at` is
/// the last whose number is less than `number`.
#[inline(always)]
fn tie_last(forest: &mut Vec<usize>, cells: &Labelled, n: usize, number: i64, at: usize)
    requires labelled { AreLabelled cells.now forest.old.items }
    requires inside { n < length cells.now.tags.items }
    requires within { at ≤ length cells.now.tags.items }
    requires away { IsRowsAway cells.now.tags.items n number }
    requires low { neg_ℤ (pos (2 ^ 62 + 2 ^ 33)) ≤ℤ number }
    requires high { number ≤ℤ pos (2 ^ 62 + 2 ^ 33) }
    requires less { AreLess cells.now.tags.items at number }
    ensures tied { IsTied cells.now forest.old.items forest.new.items }
    ensures last { (d : ModelTag) → 0 < at →
        (number -ℤ pos 2) ≤ℤ (get_or cells.now.tags.items (at - 1) d).number →
        AreOne cells.now.tags.items forest.new.items (at - 1) n }
{
    if at == 0 {
        return;
    }
    let tags = cells.tags.as_slice();
    if tags[at - 1].number < number - 2 {
        return;
    }
    tie(forest, cells, at - 1, n);
}

/// Joins the label of the cell at `n` with those of the cells whose numbers are next to this one, if they are near. The
/// number is that of a place in a row above or below the cell.
#[inline(always)]
fn tie_around(forest: &mut Vec<usize>, cells: &Labelled, n: usize, number: i64, cursor: &mut usize)
    requires labelled { AreLabelled cells.now forest.old.items }
    requires inside { n < length cells.now.tags.items }
    requires within { cursor.old ≤ length cells.now.tags.items }
    requires away { IsRowsAway cells.now.tags.items n number }
    requires low { neg_ℤ (pos (2 ^ 62 + 2 ^ 33)) ≤ℤ number }
    requires high { number ≤ℤ pos (2 ^ 62 + 2 ^ 33) }
    ensures within { cursor.new ≤ length cells.now.tags.items }
    ensures tied { IsTied cells.now forest.old.items forest.new.items }
    ensures around { IsTiedAround cells.now.tags.items forest.new.items n number }
{
    let at = place_of(cells.tags.as_slice(), *cursor, number);
    *cursor = at;
    tie_next(forest, cells, n, number, at);
    tie_last(forest, cells, n, number, at);
}

/// Joins the label of a cell with those of the cells near it and before it.
#[inline(always)]
fn tie_at(forest: &mut Vec<usize>, cells: &Labelled, n: usize, cursors: &mut Cursors)
    requires labelled { AreLabelled cells.now forest.old.items }
    requires inside { n < length cells.now.tags.items }
    requires above { cursors.old.above ≤ length cells.now.tags.items }
    requires further { cursors.old.further ≤ length cells.now.tags.items }
    ensures above { cursors.new.above ≤ length cells.now.tags.items }
    ensures further { cursors.new.further ≤ length cells.now.tags.items }
    ensures tied { IsTied cells.now forest.old.items forest.new.items }
    ensures at { IsTiedAt cells.now.tags.items forest.new.items n }
{
    let number = number_at(cells, n);
    tie_before(forest, cells, n, number);
    tie_around(forest, cells, n, number - ROW, &mut cursors.above);
    tie_around(forest, cells, n, number - 2 * ROW, &mut cursors.further);
}

/// Joins the labels of all cells that are near each other.
pub fn join_near(forest: &mut Vec<usize>, cells: &Labelled)
    requires labelled { AreLabelled cells.now forest.old.items }
    ensures tied { IsTied cells.now forest.old.items forest.new.items }
    ensures all { AreTiedUpTo cells.now.tags.items forest.new.items (length cells.now.tags.items) }
{
    let mut cursors = Cursors {
        above: 0,
        further: 0,
    };
    for n in 0..cells.tags.len() {
        tie_at(forest, cells, n, &mut cursors);
    }
}

/// Joins the label of a cell with that of the cell after it, if that one is near.
#[inline(always)]
fn tie_after(forest: &mut Vec<usize>, cells: &Labelled, n: usize)
    requires labelled { AreLabelled cells.now forest.old.items }
    requires inside { n < length cells.now.tags.items }
    ensures tied { IsTied cells.now forest.old.items forest.new.items }
    ensures next { (d : ModelTag) → n + 1 < length cells.now.tags.items →
        ((get_or cells.now.tags.items (n + 1) d).number -ℤ pos 2) ≤ℤ (get_or cells.now.tags.items n d).number →
        AreOne cells.now.tags.items forest.new.items n (n + 1) }
{
    let next = n + 1;
    if next < cells.tags.len() {
        tie_before(forest, cells, next, number_at(cells, next));
    }
}

/// Joins the label of a cell with those of the cells near it and after it.
#[inline(always)]
fn tie_below(forest: &mut Vec<usize>, cells: &Labelled, n: usize, cursors: &mut CursorsBelow)
    requires labelled { AreLabelled cells.now forest.old.items }
    requires inside { n < length cells.now.tags.items }
    requires below { cursors.old.below ≤ length cells.now.tags.items }
    requires beyond { cursors.old.beyond ≤ length cells.now.tags.items }
    ensures below { cursors.new.below ≤ length cells.now.tags.items }
    ensures beyond { cursors.new.beyond ≤ length cells.now.tags.items }
    ensures tied { IsTied cells.now forest.old.items forest.new.items }
    ensures after { IsTiedAfter cells.now.tags.items forest.new.items n }
{
    let number = number_at(cells, n);
    tie_after(forest, cells, n);
    tie_around(forest, cells, n, number + ROW, &mut cursors.below);
    tie_around(forest, cells, n, number + 2 * ROW, &mut cursors.beyond);
}

/// Joins the labels of cells that are near each other. Where neither of the two is at a place listed in `born`, they
/// are joined already.
pub fn join_born(forest: &mut Vec<usize>, cells: &Labelled, born: &[usize])
    requires labelled { AreLabelled cells.now forest.old.items }
    requires inside { All (λ k. k < length cells.now.tags.items) born.now }
    requires others { AreOneOrListed cells.now forest.old.items born.now }
    ensures tied { IsTied cells.now forest.old.items forest.new.items }
    ensures near { AreNearOne cells.now forest.new.items }
{
    if born.len() > cells.tags.len() / MANY {
        join_near(forest, cells);
        return;
    }
    let mut above = Cursors {
        above: 0,
        further: 0,
    };
    let mut below = CursorsBelow {
        below: 0,
        beyond: 0,
    };
    for n in born {
        tie_at(forest, cells, *n, &mut above);
        tie_below(forest, cells, *n, &mut below);
    }
}
