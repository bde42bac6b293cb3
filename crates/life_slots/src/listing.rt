//! The cells of tiles as a list.
ghost use Rattle.std.specs.Prelude.{◌≡◌, ℕ, ◌+◌, ◌<◌, ◌≤◌, ℤ, ◌≤ℤ◌, pos, negsuc, ◌||◌, All, OnOk, length, reverse, ◌++◌};
ghost use Rattle.std.specs.List.{list_any};
ghost use Rattle.life_model.specs.Cell.{Cell, same_cell};
ghost use Rattle.life_slots.specs.Cells.{row_cells};
ghost use Rattle.life_slots.specs.Limits.{reach_limit};
ghost use Rattle.life_slots.specs.Seats.{has_line, has_rows, has_tile, IsBetween, IsSeat};
ghost use Rattle.life_slots.specs.Slots.{tile_of};

use crate::grid::corner_of;
use crate::seats::{Seat, end_of_row};
use life_plane::{Tile, end_of_eights, first_eight};
use std::alloc::AllocError;

/// Appends the live cells of a row from west to east. Bit 0 of the word is the cell at `(left, y)`.
pub fn push_row(cells: &mut Vec<(i32, i32)>, left: i32, y: i32, word: u64) -> Result<(), AllocError>
    requires west { negsuc reach_limit ≤ℤ left }
    requires east { left ≤ℤ pos reach_limit }
    ensures { OnOk result
        (cells.new.items ≡ cells.old.items ++ reverse (row_cells left y word 64)) }
{
    let mut rest = word;
    while rest != 0 {
        let x = rest.trailing_zeros();
        cells.push((left + x as i32, y))?;
        rest &= !(1 << x);
    }
    Ok(())
}

/// The tile of a slot.
pub fn tile_in(tiles: &[Tile], slot: usize) -> &Tile
    requires { slot < length tiles.now }
    ensures { result.now ≡ tile_of tiles.now slot }
{
    &tiles[slot]
}

/// Appends the live cells of row `y` of the tiles of some seats, seat by seat.
fn push_line(
    cells: &mut Vec<(i32, i32)>,
    seats: &[Seat],
    tiles: &[Tile],
    y: usize,
) -> Result<(), AllocError>
    requires seats { All (IsSeat (length tiles.now)) seats.now }
    requires row { y < 64 }
    ensures { OnOk result ((q : Cell) → list_any (same_cell q) cells.new.items
        ≡ (list_any (same_cell q) cells.old.items || list_any (has_line tiles.now y q) seats.now)) }
{
    for seat in seats {
        let (left, top) = corner_of((seat.column, seat.row));
        let tile = tile_in(tiles, seat.slot as usize);
        push_row(cells, left, top + y as i32, tile.rows[y])?;
    }
    Ok(())
}

/// The first row from which the tiles of some seats may have live cells, and the row after the last of them.
fn rows_in(seats: &[Seat], tiles: &[Tile]) -> (usize, usize)
    requires seats { All (IsSeat (length tiles.now)) seats.now }
    ensures first { result.0 ≤ 64 }
    ensures end { result.1 ≤ 64 }
    ensures rows { All (IsBetween tiles.now result.0 result.1) seats.now }
{
    let mut first = 64;
    let mut end = 0;
    for seat in seats {
        let tile = tile_in(tiles, seat.slot as usize);
        first = first_eight(tile).min(first);
        end = end_of_eights(tile).max(end);
    }
    (first, end)
}

/// Appends the live cells of the tiles of some seats, row by row.
fn push_lines(cells: &mut Vec<(i32, i32)>, seats: &[Seat], tiles: &[Tile]) -> Result<(), AllocError>
    requires seats { All (IsSeat (length tiles.now)) seats.now }
    ensures { OnOk result ((q : Cell) → list_any (same_cell q) cells.new.items
        ≡ (list_any (same_cell q) cells.old.items || list_any (has_tile tiles.now q) seats.now)) }
{
    let (first, end) = rows_in(seats, tiles);
    for y in first..end {
        push_line(cells, seats, tiles, y)?;
    }
    Ok(())
}

/// Appends the live cells of the tiles of some seats. Those of seats that follow one another in one row of tiles are appended
/// together, row by row. So the cells are in order if the seats are ordered by rows.
pub fn push_seats(
    cells: &mut Vec<(i32, i32)>,
    seats: &[Seat],
    tiles: &[Tile],
) -> Result<(), AllocError>
    requires seats { All (IsSeat (length tiles.now)) seats.now }
    ensures { OnOk result ((q : Cell) → list_any (same_cell q) cells.new.items
        ≡ (list_any (same_cell q) cells.old.items || list_any (has_tile tiles.now q) seats.now)) }
{
    let mut from = 0;
    while from < seats.len() {
        let to = end_of_row(seats, from);
        push_lines(cells, &seats[from..to], tiles)?;
        from = to;
    }
    Ok(())
}
