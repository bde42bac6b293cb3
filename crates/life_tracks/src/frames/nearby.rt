//! Joining the places of a generation's cells if the cells are near each other.
ghost use Rattle.std.specs.Prelude.{◌≡◌, ◌+◌, ◌-◌, ◌<◌, ◌^◌, ◌+ℤ◌, ◌-ℤ◌, ◌≤ℤ◌, neg_ℤ, pos, get_or, length};
ghost use Rattle.life_model.specs.Cell.{Cell, origin};
ghost use Rattle.life_model.specs.Generation.{cells};
ghost use Rattle.life_classes.specs.Forest.{root};
ghost use Rattle.life_classes.specs.Tags.{place_number};
ghost use Rattle.life_islands.specs.Labels.{IsParting};
ghost use Rattle.life_tracks.specs.Frames.Nearby.{AreJoinedByNear, IsJoinedAround, IsJoinedAt, IsAbove, IsJoinedNear};

use crate::frames::bearers::parting;
use crate::frames::forest::join;
use life_cells::CellList;
use life_classes::{ROW, place_number};

/// The places where the last searches for near cells ended, in the two rows above a cell.
#[derive(Drop)]
struct Cursors {
    above: usize,
    further: usize,
}

/// Joins the place of a cell with the place before it, if their cells are near.
#[inline(always)]
fn join_before(forest: &mut Vec<usize>, list: &CellList, n: usize)
    requires long { length forest.old.items ≡ length (cells list.now) }
    requires inside { n < length (cells list.now) }
    ensures nearer { AreJoinedByNear list.now forest.old.items forest.new.items }
    ensures before { 0 < n → (place_number (get_or (cells list.now) n origin) -ℤ pos 2) ≤ℤ
        place_number (get_or (cells list.now) (n - 1) origin) → root forest.new.items (n - 1) ≡ root forest.new.items n }
{
    if n == 0 {
        return;
    }
    let all = list.as_slice();
    if place_number(all[n - 1]) < place_number(all[n]) - 2 {
        return;
    }
    join(forest, n - 1, n);
}

/// Joins the place of a cell with that of the first cell whose number is not less than this one, if that one is near.
#[inline(always)]
fn join_next(forest: &mut Vec<usize>, list: &CellList, n: usize, number: i64, at: usize)
    requires long { length forest.old.items ≡ length (cells list.now) }
    requires inside { n < length (cells list.now) }
    requires above { IsAbove list.now n number }
    requires low { neg_ℤ (pos (2 ^ 62 + 2 ^ 33)) ≤ℤ number }
    requires high { number ≤ℤ pos (2 ^ 62 + 2 ^ 33) }
    requires parts { IsParting (cells list.now) number at }
    ensures nearer { AreJoinedByNear list.now forest.old.items forest.new.items }
    ensures next { at < length (cells list.now) →
        place_number (get_or (cells list.now) at origin) ≤ℤ (number +ℤ pos 2) → root forest.new.items at ≡ root forest.new.items n }
{
    let all = list.as_slice();
    if at >= all.len() {
        return;
    }
    if place_number(all[at]) > number + 2 {
        return;
    }
    join(forest, at, n);
}

/// Joins the place of a cell with that of the last cell whose number is less than this one, if that one is near.
#[inline(always)]
fn join_last(forest: &mut Vec<usize>, list: &CellList, n: usize, number: i64, at: usize)
    requires long { length forest.old.items ≡ length (cells list.now) }
    requires inside { n < length (cells list.now) }
    requires above { IsAbove list.now n number }
    requires low { neg_ℤ (pos (2 ^ 62 + 2 ^ 33)) ≤ℤ number }
    requires high { number ≤ℤ pos (2 ^ 62 + 2 ^ 33) }
    requires parts { IsParting (cells list.now) number at }
    ensures nearer { AreJoinedByNear list.now forest.old.items forest.new.items }
    ensures last { 0 < at → (number -ℤ pos 2) ≤ℤ place_number (get_or (cells list.now) (at - 1) origin) →
        root forest.new.items (at - 1) ≡ root forest.new.items n }
{
    if at == 0 {
        return;
    }
    let all = list.as_slice();
    if place_number(all[at - 1]) < number - 2 {
        return;
    }
    join(forest, at - 1, n);
}

/// Joins the place of a cell with those of the cells whose numbers are next to this one, if they are near. The number
/// is that of a place in a row above the cell.
#[inline(always)]
fn join_around(forest: &mut Vec<usize>, list: &CellList, n: usize, number: i64, guess: &mut usize)
    requires long { length forest.old.items ≡ length (cells list.now) }
    requires inside { n < length (cells list.now) }
    requires above { IsAbove list.now n number }
    requires low { neg_ℤ (pos (2 ^ 62 + 2 ^ 33)) ≤ℤ number }
    requires high { number ≤ℤ pos (2 ^ 62 + 2 ^ 33) }
    ensures nearer { AreJoinedByNear list.now forest.old.items forest.new.items }
    ensures around { IsJoinedAround list.now forest.new.items n number }
{
    let at = parting(list.as_slice(), number, guess);
    join_next(forest, list, n, number, at);
    join_last(forest, list, n, number, at);
}

/// Joins the place of a cell with those of the cells near it and before it.
#[inline(always)]
fn join_at(forest: &mut Vec<usize>, list: &CellList, n: usize, cursors: &mut Cursors)
    requires long { length forest.old.items ≡ length (cells list.now) }
    requires inside { n < length (cells list.now) }
    ensures nearer { AreJoinedByNear list.now forest.old.items forest.new.items }
    ensures at { IsJoinedAt list.now forest.new.items n }
{
    let number = place_number(list.as_slice()[n]);
    join_before(forest, list, n);
    join_around(forest, list, n, number - ROW, &mut cursors.above);
    join_around(forest, list, n, number - 2 * ROW, &mut cursors.further);
}

/// Joins the places of the cells that are near each other.
pub fn join_near(forest: &mut Vec<usize>, list: &CellList)
    requires long { length forest.old.items ≡ length (cells list.now) }
    ensures nearer { AreJoinedByNear list.now forest.old.items forest.new.items }
    ensures near { IsJoinedNear list.now forest.new.items }
{
    let mut cursors = Cursors {
        above: 0,
        further: 0,
    };
    let all = list.as_slice();
    for n in 0..all.len() {
        join_at(forest, list, n, &mut cursors);
    }
}
