//! The bands that are active in a first step.
ghost use Rattle.std.specs.Prelude.{◌≡◌, ℕ, ◌<◌, ◌≤◌, length};
ghost use Rattle.life_plane.specs.Area.{tile_cell};
ghost use Rattle.life_plane.specs.Changes.{IsChange};
ghost use Rattle.life_slots.specs.Rims.{IsNextToBand};
ghost use Rattle.life_slots.specs.Slots.{tile_of, empty_tile};
ghost use Rattle.life_slots.specs.Work.{touch_of, IsLinked, IsMarkedNear};

use crate::bands::Bands;
use crate::slot::Slot;
use crate::stepping::mark_all;
use crate::touched::Touched;
use life_plane::{Change, Tile, has_cells};

/// Makes each tile empty.
pub fn clear_all(tiles: &mut [Tile])
    ensures length { length tiles.new ≡ length tiles.old }
    ensures empty { (k : ℕ) → k < length tiles.old → tile_of tiles.new k ≡ empty_tile }
{
    for tile in tiles.iter_mut() {
        *tile = Tile::EMPTY;
    }
}

/// The difference of eight rows of a tile, from `top` on, from those of the empty tile.
fn birth(tile: &Tile, top: usize) -> Change
    requires { top ≤ 56 }
    ensures { IsChange result empty_tile tile.now top }
{
    let mut all = 0;
    for y in 0..8 {
        all |= tile.rows[top + y];
    }
    Change {
        all,
        first: tile.rows[top],
        last: tile.rows[top + 7],
    }
}

/// The bands of nine tiles that a live cell of the tile in the middle is in or next to.
fn bands_near(tile: &Tile) -> Touched
    ensures { (m band x y : ℕ) → m < 9 → band < 8 → x < 64 → y < 64 →
        IsNextToBand (record { direction = m; band = band; column = x; row = y }) →
        touch_of result.columns m band ≡ 0 →
        tile_cell tile.now x y ≡ 0 }
{
    let mut touched = Touched::NONE;
    for index in 0..8 {
        if has_cells(tile, 8 * index) {
            touched = touched.with_band(index, &birth(tile, 8 * index));
        }
    }
    touched
}

/// Marks the bands that a live cell is in or next to, and no others.
pub fn mark_near(marks: &mut [Bands], slots: &[Slot], tiles: &[Tile])
    requires linked { IsLinked slots.now }
    requires tiles { length tiles.now ≡ length slots.now }
    requires marks { length marks.old ≡ length slots.now }
    ensures length { length marks.new ≡ length marks.old }
    ensures near { IsMarkedNear slots.now tiles.now marks.new (length slots.now) }
{
    mark_all(marks, Bands::NONE);
    for slot in 1..slots.len() {
        bands_near(&tiles[slot]).mark(marks, &slots[slot].links);
    }
}
