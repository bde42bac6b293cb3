//! Rows of a tile without a live cell, eight at a time.
ghost use Rattle.std.specs.Prelude.{◌≡◌, ℕ, ◌+◌, ◌*◌, ◌<◌, ◌≤◌, false, slice_index};
ghost use Rattle.life_plane.specs.Eights.{AreVoid};

use crate::tile::Tile;

/// True where eight rows of a tile, from `top` on, have a live cell.
pub fn has_cells(tile: &Tile, top: usize) -> bool
    requires { top ≤ 56 }
    ensures void { result ≡ false → AreVoid tile.now.rows top }
    ensures some { AreVoid tile.now.rows top → result ≡ false }
{
    let mut all = 0;
    for y in 0..8 {
        all |= tile.rows[top + y];
    }
    all != 0
}

/// The first row of the first eight rows of a tile that have a live cell, or 64 if no row has one.
pub fn first_eight(tile: &Tile) -> usize
    ensures small { result ≤ 64 }
    ensures eight { (band : ℕ) × (result ≡ 8 * band) }
    ensures void { (y : ℕ) → y < result → slice_index tile.now.rows y ≡ 0 }
    ensures some { result < 64 → AreVoid tile.now.rows result → ⊥ }
{
    for band in 0..8 {
        if has_cells(tile, 8 * band) {
            return 8 * band;
        }
    }
    64
}

/// The row after the last eight rows of a tile that have a live cell, or 0 if no row has one.
pub fn end_of_eights(tile: &Tile) -> usize
    ensures small { result ≤ 64 }
    ensures eight { (band : ℕ) × (result ≡ 8 * band) }
    ensures void { (y : ℕ) → result ≤ y → y < 64 → slice_index tile.now.rows y ≡ 0 }
    ensures some { (top : ℕ) → result ≡ top + 8 → AreVoid tile.now.rows top → ⊥ }
{
    let mut band = 8usize;
    while band > 0 {
        band -= 1;
        if has_cells(tile, 8 * band) {
            return 8 * band + 8;
        }
    }
    0
}
