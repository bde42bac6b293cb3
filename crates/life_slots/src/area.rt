//! Areas of 64 by 64 cells: made of four leaves, one generation later, and the leaf in their middle.
ghost use Rattle.std.specs.Prelude.{◌≡◌, ℕ, ◌+◌, ◌<◌, ◌≤◌, ◌⊎◌, true, slice_index};
ghost use Rattle.std.specs.Int.{bit_at};
ghost use Rattle.life_model.specs.Cell.{Cell};
ghost use Rattle.life_model.specs.Evolution.{next};
ghost use Rattle.life_model.specs.Generation.{Generation};
ghost use Rattle.life_model.specs.Rule.{Rule};
ghost use Rattle.life_plane.specs.Area.{tile_cell};
ghost use Rattle.life_plane.specs.Logics.{IsLogicOf};
ghost use Rattle.life_slots.specs.Areas.{ShowsWithin};
ghost use Rattle.life_slots.specs.Leaves.{leaf_cell, ShowsFour};

use crate::leaf::{FourLeaves, Leaf};
use life_plane::{Around, Logic, Tile, Window, band, has_cells};

/// Two rows side by side, as one.
#[inline(always)]
fn joined(west: u32, east: u32) -> u64
    ensures west { (x : ℕ) → x < 32 → bit_at result x ≡ bit_at west x }
    ensures east { (x : ℕ) → x < 32 → bit_at result (x + 32) ≡ bit_at east x }
{
    u64::from(west) | (u64::from(east) << 32)
}

/// The middle 32 cells of a row.
#[inline(always)]
fn middle_of(row: u64) -> u32
    ensures { (x : ℕ) → x < 32 → bit_at result x ≡ bit_at row (x + 16) }
{
    ((row >> 16) & 0xffff_ffff) as u32
}

/// Writes two leaves side by side over 32 rows of an area. Every other row is unchanged.
#[inline(always)]
fn put_leaves(area: &mut Tile, top: usize, west: &Leaf, east: &Leaf)
    requires { top ≤ 32 }
    ensures west { (x y : ℕ) → x < 32 → y < 32 →
        tile_cell area.new x (top + y) ≡ leaf_cell west.now x y }
    ensures east { (x y : ℕ) → x < 32 → y < 32 →
        tile_cell area.new (x + 32) (top + y) ≡ leaf_cell east.now x y }
    ensures others { (y : ℕ) → (y < top) ⊎ (top + 32 ≤ y) →
        slice_index area.new.rows y ≡ slice_index area.old.rows y }
{
    for y in 0..32 {
        area.rows[top + y] = joined(west.rows[y], east.rows[y]);
    }
}

/// The cells of four leaves.
#[inline(always)]
pub fn area_of(four: &FourLeaves) -> Tile
    ensures { (G : Generation) (place : Cell) → ShowsFour four.now G place →
        ShowsWithin 0 result G place }
{
    let mut area = Tile::EMPTY;
    put_leaves(&mut area, 0, four.north_west, four.north_east);
    put_leaves(&mut area, 32, four.south_west, four.south_east);
    area
}

/// The leaf in the middle: the cells of columns 16 to 47 in rows 16 to 47.
#[inline(always)]
pub fn middle(area: &Tile) -> Leaf
    ensures { (x y : ℕ) → x < 32 → y < 32 →
        leaf_cell result x y ≡ tile_cell area.now (x + 16) (y + 16) }
{
    let mut rows = [0; 32];
    for y in 0..32 {
        rows[y] = middle_of(area.rows[y + 16]);
    }
    Leaf { rows }
}

/// True where eight rows from `top` on, the one above them and the one below have no live cell.
#[inline(always)]
fn is_quiet(area: &Tile, top: usize) -> bool
    requires { top ≤ 56 }
    ensures { result ≡ true → (y : ℕ) → top ≤ y + 1 → y < top + 9 → y < 64 →
        slice_index area.now.rows y ≡ 0 }
{
    if top > 0 && area.rows[top - 1] != 0 {
        return false;
    }
    if top < 56 && area.rows[top + 8] != 0 {
        return false;
    }
    !has_cells(area, top)
}

/// Clears eight rows. Every other row is unchanged.
#[inline(always)]
fn clear(area: &mut Tile, top: usize)
    requires { top ≤ 56 }
    ensures none { (y : ℕ) → top ≤ y → y < top + 8 → slice_index area.new.rows y ≡ 0 }
    ensures others { (y : ℕ) → (y < top) ⊎ (top + 8 ≤ y) →
        slice_index area.new.rows y ≡ slice_index area.old.rows y }
{
    for y in 0..8 {
        area.rows[top + y] = 0;
    }
}

/// Writes the next generation of an area over another area, as if no cell beyond its edge were live. `rim` rows and columns at
/// each side of the area may be wrong, so one more row and column at each side may be wrong afterwards. Bands of which all rows
/// may then be wrong are unchanged. Eight rows that have no live cell near them are cleared, not computed.
#[inline(always)]
pub fn advance(logic: &Logic, rim: usize, here: &Tile, there: &mut Tile)
    requires { rim < 32 }
    ensures { (rule : Rule) → IsLogicOf logic.now rule → (G : Generation) (place : Cell) →
        ShowsWithin rim here.now G place → ShowsWithin (rim + 1) there.new (next rule G) place }
{
    let empty = &Tile::EMPTY;
    let around = Around {
        north: empty,
        north_east: empty,
        east: empty,
        south_east: empty,
        south: empty,
        south_west: empty,
        west: empty,
        north_west: empty,
    };
    let from = (rim + 1) / 8;
    for i in from..8 - from {
        if is_quiet(here, 8 * i) {
            clear(there, 8 * i);
        } else {
            let window = Window::of(here, &around, 8 * i);
            let _ = band(logic, &window, there);
        }
    }
}
