//! The next generation of a tile around which all cells are dead, in the rows that may have a live cell.
ghost use Rattle.std.specs.Prelude.{◌≡◌, ℕ, ◌+◌, ◌-◌, ◌<◌, ◌≤◌, slice_index};
ghost use Rattle.life_model.specs.Rule.{Rule};
ghost use Rattle.life_plane.specs.Area.{next_in_area, tile_cell};
ghost use Rattle.life_plane.specs.Logics.{IsLogicOf};
ghost use Rattle.life_plane.specs.Numbers.{number_at};
ghost use Rattle.life_plane.specs.Rows.{IsRowSumsOf};
ghost use Rattle.life_board.specs.Squares.{alone, around_in, AreColumnsOf, IsVoidOutside};

use life_cells::Rule;
use life_plane::{Count, Logic, RowSums, Tile, full_adder, sums};

/// The number of live neighbours of each cell of a row, from the sums of the row above, of its own row and of the row
/// below.
#[inline(always)]
fn count(above: RowSums, beside: RowSums, below: RowSums) -> Count
    ensures { (a b c : ℕ) → IsRowSumsOf above a → IsRowSumsOf beside b → IsRowSumsOf below c →
        (x : ℕ) → x < 64 →
        number_at result x ≡ around_in a b c x }
{
    let sum = full_adder(above.three.ones, below.three.ones, beside.two.ones);
    Count {
        ones: sum.ones,
        above: above.three.twos,
        below: below.three.twos,
        beside: beside.two.twos,
        carried: sum.twos,
    }
}

/// Turns a tile into its next generation by a logic, as `advance` says.
#[inline(always)]
fn advance_by(tile: &mut Tile, first: usize, end: usize, logic: &Logic) -> u64
    requires first { 0 < first }
    requires end { end ≤ 62 }
    requires void { IsVoidOutside tile.old.rows first end }
    ensures next { (rule : Rule) → IsLogicOf logic.now rule → (x y : ℕ) → x < 64 → y < 64 →
        tile_cell tile.new x y ≡ next_in_area rule (alone tile.old) x y }
    ensures void { IsVoidOutside tile.new.rows (first - 1) (end + 1) }
    ensures columns { AreColumnsOf result tile.new }
{
    let mut above = sums(0, 0, 0);
    let mut beside = sums(0, 0, 0);
    let mut columns = 0;
    for y in first - 1..end + 1 {
        let below = sums(0, tile.rows[y + 1], 0);
        tile.rows[y] = logic.next(tile.rows[y], count(above, beside, below));
        columns |= tile.rows[y];
        above = beside;
        beside = below;
    }
    columns
}

/// Turns a tile into its next generation by any rule, as `advance` says.
///
/// It is not inlined: in `advance`, it would make a step by Conway's rule reserve stack space for the logic of any
/// rule first.
#[inline(never)]
fn advance_by_rule(tile: &mut Tile, first: usize, end: usize, rule: &Rule) -> u64
    requires first { 0 < first }
    requires end { end ≤ 62 }
    requires void { IsVoidOutside tile.old.rows first end }
    ensures next { (x y : ℕ) → x < 64 → y < 64 →
        tile_cell tile.new x y ≡ next_in_area rule.now (alone tile.old) x y }
    ensures void { IsVoidOutside tile.new.rows (first - 1) (end + 1) }
    ensures columns { AreColumnsOf result tile.new }
{
    advance_by(tile, first, end, &Logic::of(rule))
}

/// Turns a tile into its next generation, if all cells around it are dead and no row outside a range has a live cell.
/// Returns for each column a bit that is set if one of its cells is then live.
pub fn advance(tile: &mut Tile, first: usize, end: usize, rule: &Rule) -> u64
    requires first { 0 < first }
    requires end { end ≤ 62 }
    requires void { IsVoidOutside tile.old.rows first end }
    ensures next { (x y : ℕ) → x < 64 → y < 64 →
        tile_cell tile.new x y ≡ next_in_area rule.now (alone tile.old) x y }
    ensures void { IsVoidOutside tile.new.rows (first - 1) (end + 1) }
    ensures columns { AreColumnsOf result tile.new }
{
    if *rule == Rule::life() {
        advance_by(tile, first, end, &Logic::Life)
    } else {
        advance_by_rule(tile, first, end, rule)
    }
}

/// The first row of a range that has a live cell, or the end of the range if none has.
pub fn first_row(tile: &Tile, first: usize, end: usize) -> usize
    requires { IsVoidOutside tile.now.rows first end }
    ensures from { first ≤ result }
    ensures void { IsVoidOutside tile.now.rows result end }
{
    let mut y = first;
    while y < end && tile.rows[y] == 0 {
        y += 1;
    }
    y
}

/// The row after the last of a range that has a live cell, or the start of the range if none has.
pub fn end_of_rows(tile: &Tile, first: usize, end: usize) -> usize
    requires { IsVoidOutside tile.now.rows first end }
    ensures void { IsVoidOutside tile.now.rows first result }
{
    let mut y = end;
    while first < y && tile.rows[y - 1] == 0 {
        y -= 1;
    }
    y
}
