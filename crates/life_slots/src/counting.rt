//! The numbers of live cells of tiles.
ghost use Rattle.std.specs.Prelude.{◌≡◌, ℤ, ◌<◌, ◌≤◌, ◌^◌, length};
ghost use Rattle.std.specs.List.{sum_by};
ghost use Rattle.life_slots.specs.Cells.{row_cells, block_cells, tile_count, IsCountFrom};

use life_plane::{Tile, has_cells};

/// The number of live cells of a row.
fn count_row(row: u64) -> u64
    ensures few { result ≤ 64 }
    ensures cells { (left y : ℤ) → result ≡ length (row_cells left y row 64) }
{
    u64::from(row.count_ones())
}

/// The number of live cells of eight rows of a tile, from `top` on.
fn count_rows(tile: &Tile, top: usize) -> u64
    requires { top ≤ 56 }
    ensures few { result ≤ 512 }
    ensures cells { IsCountFrom tile.now.rows (record { from = top; height = 8; cells = result }) }
{
    let mut count = 0;
    for y in 0..8 {
        count += count_row(tile.rows[top + y]);
    }
    count
}

/// The number of live cells of a tile. Most bands of eight rows have none, which is quicker to see than to count.
pub fn count_tile(tile: &Tile) -> u64
    ensures { (left top : ℤ) → result ≡ length (block_cells left top tile.now.rows 64) }
{
    let mut count = 0;
    for band in 0..8 {
        if has_cells(tile, 8 * band) {
            count += count_rows(tile, 8 * band);
        }
    }
    count
}

/// The number of live cells of tiles.
pub fn count_cells(tiles: &[Tile]) -> u64
    requires { sum_by tile_count tiles.now < 2 ^ 64 }
    ensures { result ≡ sum_by tile_count tiles.now }
{
    let mut count = 0;
    for tile in tiles {
        count += count_tile(tile);
    }
    count
}
