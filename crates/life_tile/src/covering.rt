//! The test of whether the live cells of a store, moved as a whole, are live in another store, in rows of 64.
ghost use Rattle.std.specs.Prelude.{◌≡◌, ◌↔◌, ◌+◌, ◌-◌, ◌+ℤ◌, ◌<◌, ◌≤◌, ℕ, pos, IsTrue, length};
ghost use Rattle.std.specs.Int.{bit_at};
ghost use Rattle.life_model.specs.Cell.{Cell, opposite, plus};
ghost use Rattle.life_cells.specs.Limits.{IsPlace};
ghost use Rattle.life_slots.specs.Ends.{IsMember};
ghost use Rattle.life_slots.specs.Places.{start_at};
ghost use Rattle.life_slots.specs.Slots.{place_of};
ghost use Rattle.life_slots.specs.Cells.{state_at};
ghost use Rattle.life_tile.specs.Reach.{corner_at, IsInReach, IsRowIn, IsTileIn};
ghost use Rattle.life_tile.specs.TileStores.{IsKept, members_of};

use crate::sameness::moved;
use crate::tile_store::TileStore;
use life_plane::Tile;
use life_slots::{Slot, corner_of, slot_or_none, split, tile_in};

/// The 64 bits of two words side by side from bit `shift` of the first on.
fn joined(west: u64, east: u64, shift: usize) -> u64
    requires { shift < 64 }
    ensures near { (j : ℕ) → shift + j < 64 → bit_at result j ≡ bit_at west (shift + j) }
    ensures far { (j : ℕ) → j < 64 → 64 ≤ shift + j →
        bit_at result j ≡ bit_at east (shift + j - 64) }
{
    if shift == 0 {
        west
    } else {
        (west >> shift) | (east << (64 - shift))
    }
}

/// Row `y` of the tile in a column and a row of tiles.
fn row_at(store: &TileStore, column: i32, row: i32, y: usize) -> u64
    requires kept { IsKept store.now }
    requires y { y < 64 }
    ensures { (x : ℕ) → x < 64 →
        bit_at result x ≡
        state_at (members_of store.now) (start_at column +ℤ pos x) (start_at row +ℤ pos y) }
{
    tile_in(
        &store.current,
        slot_or_none(&store.index, (column, row)) as usize,
    )
    .rows[y]
}

/// The cell and the 63 to the east of it.
pub fn row_from(store: &TileStore, cell: (i32, i32)) -> u64
    requires kept { IsKept store.now }
    requires reach { IsInReach cell }
    ensures { (j : ℕ) → j < 64 →
        bit_at result j ≡ state_at (members_of store.now) (cell.0 +ℤ pos j) cell.1 }
{
    let (column, shift) = split(cell.0);
    let (row, y) = split(cell.1);
    let west = row_at(store, column, row, y);
    let east = row_at(store, column + 1, row, y);
    joined(west, east, shift)
}

/// True where each set bit of a word is a live cell. Bit 0 is at `start`.
fn has_row(store: &TileStore, word: u64, start: (i32, i32)) -> bool
    requires kept { IsKept store.now }
    requires reach { IsInReach start }
    ensures { IsTrue result ↔ IsRowIn (members_of store.now) word start }
{
    if word == 0 {
        return true;
    }
    word & !row_from(store, start) == 0
}

/// True where each live cell of a tile, whose first cell is at `corner`, is live in the store after the move from one
/// place to another.
fn has_tile(
    store: &TileStore,
    tile: &Tile,
    corner: (i32, i32),
    from: (i32, i32),
    to: (i32, i32),
) -> bool
    requires kept { IsKept store.now }
    requires corner { IsPlace corner }
    requires lower { IsPlace (corner.0, corner.1 +ℤ pos 63) }
    requires from { IsPlace from }
    requires to { IsPlace to }
    ensures { IsTrue result ↔ IsTileIn (members_of store.now) tile.now corner
        (plus to (opposite from)) }
{
    for y in 0..64 {
        let start = moved((corner.0, corner.1 + y as i32), from, to);
        if !has_row(store, tile.rows[y], start) {
            return false;
        }
    }
    true
}

fn place_in(slots: &[Slot], slot: usize) -> (i32, i32)
    requires { slot < length slots.now }
    ensures { result ≡ place_of slots.now slot }
{
    slots[slot].place
}

/// The first cell of the tile of a slot.
pub fn corner_in(store: &TileStore, slot: usize) -> (i32, i32)
    requires kept { IsKept store.now }
    requires later { 0 < slot }
    requires slot { slot < length store.now.slots.items }
    ensures is { result ≡ corner_at (place_of store.now.slots.items slot) }
    ensures first { IsPlace result }
    ensures last { IsPlace (result.0, result.1 +ℤ pos 63) }
{
    corner_of(place_in(&store.slots, slot))
}

/// True where each live cell of another store is live in this one after the move from one place to another.
pub fn has_store(store: &TileStore, other: &TileStore, from: (i32, i32), to: (i32, i32)) -> bool
    requires kept { IsKept store.now }
    requires other { IsKept other.now }
    requires from { IsPlace from }
    requires to { IsPlace to }
    ensures { IsTrue result ↔
        ((c : Cell) → IsMember (members_of other.now) c →
        IsMember (members_of store.now) (plus c (plus to (opposite from)))) }
{
    for slot in 1..other.slots.len() {
        let tile = tile_in(&other.current, slot);
        if !has_tile(store, tile, corner_in(other, slot), from, to) {
            return false;
        }
    }
    true
}
