//! The test of whether the cells of a list, moved as a whole, may be live in a store, in rows of 64.
ghost use Rattle.std.specs.Prelude.{◌≡◌, ◌≢◌, ◌+ℤ◌, ◌<◌, ◌≤◌, ◌≤ℤ◌, ℕ, ℤ, pos, neg_ℤ, negsuc, All, false, get_or, length};
ghost use Rattle.std.specs.Int.{bit_at};
ghost use Rattle.life_model.specs.Cell.{Cell, origin, plus};
ghost use Rattle.life_cells.specs.Limits.{IsPlace, age_limit, last_place};
ghost use Rattle.life_plane.specs.Offsets.{IsMoveWithin};
ghost use Rattle.life_plane.specs.Area.{tile_cell};
ghost use Rattle.life_slots.specs.Cells.{state_at};
ghost use Rattle.life_slots.specs.Ends.{IsMember};
ghost use Rattle.life_tile.specs.Standing.{AreMembers, HasNoneInRow, HasNoneInTile, IsLedTo};
ghost use Rattle.life_tile.specs.TileStores.{IsKept, members_of};

use crate::covering::{corner_in, row_from};
use crate::sameness::moved;
use crate::tile_store::TileStore;
use life_plane::Tile;
use life_slots::{is_void, tile_in};

/// False only if a place, moved by at most `reach`, is not one of the 64 from another on. It is used for x and for y.
fn is_near(z: i32, first: i32, reach: u32) -> bool
    requires west { negsuc last_place ≤ℤ z }
    requires east { z ≤ℤ pos last_place }
    requires first_west { negsuc last_place ≤ℤ first }
    requires first_east { first ≤ℤ pos last_place }
    requires reach { reach ≤ age_limit }
    ensures { result ≡ false → (n : ℕ) (s : ℤ) → n < 64 → neg_ℤ (pos reach) ≤ℤ s → s ≤ℤ pos reach →
        (z +ℤ s) ≢ (first +ℤ pos n) }
{
    let far = reach as i32;
    let offset = first - z;
    offset <= far && -far - 63 <= offset
}

/// The bits at which a cell of the list may be live, after the move that takes the cell with the number `lead` to a bit
/// of a row of members. Bit 0 is at `start`. A cell to the right in the same row is looked up in the word; beyond the
/// end of the word every cell may be live.
fn live_beside(
    store: &TileStore,
    cells: &[(i32, i32)],
    lead: usize,
    n: usize,
    word: u64,
    start: (i32, i32),
) -> u64
    requires kept { IsKept store.now }
    requires lead { lead < length cells.now }
    requires n { n < length cells.now }
    requires placed { All IsPlace cells.now }
    requires start { IsPlace start }
    requires row { (j : ℕ) → j < 64 →
        bit_at word j ≡ state_at (members_of store.now) (start.0 +ℤ pos j) start.1 }
    ensures { (j : ℕ) (d : Cell) → j < 64 →
        IsLedTo cells.now lead d (start.0 +ℤ pos j, start.1) →
        IsMember (members_of store.now) (plus (get_or cells.now n origin) d) → bit_at result j ≡ 1 }
{
    let dx = cells[n].0 - cells[lead].0;
    if cells[n].1 == cells[lead].1 && 0 < dx && dx < 64 {
        (word >> dx as u32) | !(u64::MAX >> dx as u32)
    } else {
        row_from(store, moved(cells[n], cells[lead], start))
    }
}

/// False only if no move that takes the cell with the number `lead` to a set bit of a row of members makes all of the
/// cells live. Bit 0 is at `start`.
fn may_stand_in_row(
    store: &TileStore,
    cells: &[(i32, i32)],
    lead: usize,
    word: u64,
    start: (i32, i32),
) -> bool
    requires kept { IsKept store.now }
    requires lead { lead < length cells.now }
    requires placed { All IsPlace cells.now }
    requires start { IsPlace start }
    requires row { (j : ℕ) → j < 64 →
        bit_at word j ≡ state_at (members_of store.now) (start.0 +ℤ pos j) start.1 }
    ensures { result ≡ false → HasNoneInRow (members_of store.now) cells.now lead word start }
{
    // (the bits at which the cells examined so far may all be live)
    let mut left = word;
    for n in lead + 1..cells.len() {
        if left == 0 {
            return false;
        }
        left &= live_beside(store, cells, lead, n, word, start);
    }
    for n in 0..lead {
        if left == 0 {
            return false;
        }
        left &= live_beside(store, cells, lead, n, word, start);
    }
    left != 0
}

/// False only if no move by at most `reach` places to each side that takes the cell with the number `lead` into a tile
/// of the store makes all of the cells live. The tile's first cell is at `corner`.
fn may_stand_in_tile(
    store: &TileStore,
    cells: &[(i32, i32)],
    lead: usize,
    reach: u32,
    tile: &Tile,
    corner: (i32, i32),
) -> bool
    requires kept { IsKept store.now }
    requires lead { lead < length cells.now }
    requires placed { All IsPlace cells.now }
    requires reach { reach ≤ age_limit }
    requires corner { IsPlace corner }
    requires lower { IsPlace (corner.0, corner.1 +ℤ pos 63) }
    requires shown { (x y : ℕ) → x < 64 → y < 64 →
        tile_cell tile.now x y ≡
        state_at (members_of store.now) (corner.0 +ℤ pos x) (corner.1 +ℤ pos y) }
    ensures { result ≡ false → HasNoneInTile reach (members_of store.now) cells.now lead tile.now corner }
{
    if !is_near(cells[lead].0, corner.0, reach) {
        return false;
    }
    if !is_near(cells[lead].1, corner.1, reach) {
        return false;
    }
    if is_void(tile) {
        return false;
    }
    for y in 0..64 {
        let word = tile.rows[y];
        let start = (corner.0, corner.1 + y as i32);
        if word != 0 && may_stand_in_row(store, cells, lead, word, start) {
            return true;
        }
    }
    false
}

/// The number of the cell with the most cells after it in its own row. Such a row shows earliest that the cells are not
/// there. No answer depends on the choice.
fn first_of_longest_row(cells: &[(i32, i32)]) -> usize
    requires { 0 < length cells.now }
    ensures { result < length cells.now }
{
    let mut best = 0;
    let mut most = 0;
    let mut first = 0;
    for n in 0..cells.len() {
        if cells[n].1 != cells[first].1 {
            first = n;
        }
        let after = n.saturating_sub(first);
        if most < after {
            most = after;
            best = first;
        }
    }
    best
}

/// False only if no move by at most `reach` places to each side makes all of the cells live.
pub fn may_stand(store: &TileStore, cells: &[(i32, i32)], reach: u32) -> bool
    requires kept { IsKept store.now }
    requires placed { All IsPlace cells.now }
    requires reach { reach ≤ age_limit }
    ensures { result ≡ false → (d : Cell) → IsMoveWithin reach d →
        AreMembers (members_of store.now) cells.now d → ⊥ }
{
    if cells.is_empty() {
        return true;
    }
    let lead = first_of_longest_row(cells);
    for slot in 1..store.slots.len() {
        let tile = tile_in(&store.current, slot);
        if may_stand_in_tile(store, cells, lead, reach, tile, corner_in(store, slot)) {
            return true;
        }
    }
    false
}
