//! The tiles that have a live cell, row by row.
ghost use Rattle.std.specs.Prelude.{◌≡◌, ℕ, ℤ, ◌<◌, ◌≤◌, All, IfOk, Some, length};
ghost use Rattle.std.specs.BTreeMap.{get};
ghost use Rattle.std.specs.List.{list_any};
ghost use Rattle.life_model.specs.Cell.{Cell, same_cell};
ghost use Rattle.life_slots.specs.Cells.{tiles_cells};
ghost use Rattle.life_slots.specs.Places.{place_cmp, IsInside};
ghost use Rattle.life_slots.specs.Seats.{has_tile, IsSeat};
ghost use Rattle.life_slots.specs.Slots.{placed_tiles};

use crate::ends::is_void;
use crate::listing::tile_in;
use life_plane::Tile;
use std::alloc::{AllocError, Global};
use std::collections::BTreeMap;

/// The row and the column of tiles that a tile is in, and its slot.
#[derive(Clone, Copy)]
pub struct Seat {
    pub row: i32,
    pub column: i32,
    pub slot: u32,
}

/// The seats of an index whose tile has a live cell, in the order of the index.
fn live_seats(
    alloc: Global,
    index: &BTreeMap<(i32, i32), u32>,
    tiles: &[Tile],
) -> Result<Vec<Seat>, AllocError>
    requires inside { (p : ℤ × ℤ) (k : ℕ) → get place_cmp index.now p ≡ Some k → IsInside p }
    requires slots { (p : ℤ × ℤ) (k : ℕ) → get place_cmp index.now p ≡ Some k →
        k < length tiles.now }
    ensures seats { IfOk result (λ seats. All (IsSeat (length tiles.now)) seats.items) }
    ensures cells { IfOk result (λ seats. (q : Cell) → list_any (has_tile tiles.now q) seats.items
        ≡ list_any (same_cell q) (tiles_cells (placed_tiles index.now.entries tiles.now))) }
{
    let mut seats = Vec::new(alloc);
    for (place, slot) in index.iter() {
        if !is_void(tile_in(tiles, *slot as usize)) {
            seats.push(Seat {
                row: place.1,
                column: place.0,
                slot: *slot,
            })?;
        }
    }
    Ok(seats)
}

/// The seats of an index whose tile has a live cell, row by row and in each from west to east.
pub fn seats_by_rows(
    alloc: Global,
    index: &BTreeMap<(i32, i32), u32>,
    tiles: &[Tile],
) -> Result<Vec<Seat>, AllocError>
    requires inside { (p : ℤ × ℤ) (k : ℕ) → get place_cmp index.now p ≡ Some k → IsInside p }
    requires slots { (p : ℤ × ℤ) (k : ℕ) → get place_cmp index.now p ≡ Some k →
        k < length tiles.now }
    ensures seats { IfOk result (λ seats. All (IsSeat (length tiles.now)) seats.items) }
    ensures cells { IfOk result (λ seats. (q : Cell) → list_any (has_tile tiles.now q) seats.items
        ≡ list_any (same_cell q) (tiles_cells (placed_tiles index.now.entries tiles.now))) }
{
    let mut seats = live_seats(alloc, index, tiles)?;
    seats.sort_unstable_by_key(|seat| (seat.row, seat.column));
    Ok(seats)
}

/// One more than the last of the seats that follow one another from a seat on in its row of tiles.
pub fn end_of_row(seats: &[Seat], from: usize) -> usize
    requires { from < length seats.now }
    ensures later { from < result }
    ensures inside { result ≤ length seats.now }
{
    let row = seats[from].row;
    let mut to = from + 1;
    while to < seats.len() && seats[to].row == row {
        to += 1;
    }
    to
}
