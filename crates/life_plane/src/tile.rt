//! Tiles: squares of 64 by 64 cells, and their next generation.
ghost use Rattle.std.specs.Prelude.{◌≡◌, ◌≢◌, ℕ, ◌<◌, ◌⊎◌, ◌↔◌, IsTrue, length, slice_index};
ghost use Rattle.std.specs.Int.{bit_at};
ghost use Rattle.life_plane.specs.Flags.{as_bit};
ghost use Rattle.life_plane.specs.Area.{tile_cell, nine_of, next_in_area};

use crate::answers::{Answers, next_row_by};
use crate::strand::Strand;
use life_cells::Rule;

/// A square of 64 by 64 cells, seen as the set of its live ones: bit `x` of `rows[y]` is set where the cell in column `x` and
/// row `y` is live.
#[derive(Clone, Copy)]
pub struct Tile {
    pub rows: [u64; 64],
}

/// The eight tiles around a tile. North is towards lower rows, and west towards lower columns.
#[derive(Clone, Copy)]
pub struct Around<'a> {
    pub north: &'a Tile,
    pub north_east: &'a Tile,
    pub east: &'a Tile,
    pub south_east: &'a Tile,
    pub south: &'a Tile,
    pub south_west: &'a Tile,
    pub west: &'a Tile,
    pub north_west: &'a Tile,
}

impl Tile {
    /// The tile without a live cell.
    pub const EMPTY: Tile = Tile { rows: [0; 64] };

    /// True where the cell in column `x` and row `y` is live.
    pub fn get(&self, x: usize, y: usize) -> bool
        requires column { x < 64 }
        requires row { y < 64 }
        ensures { as_bit result ≡ tile_cell self.now x y }
    {
        (self.rows[y] >> x) & 1 == 1
    }

    /// Makes the cell in column `x` and row `y` live or dead. Every other cell is unchanged.
    pub fn set(&mut self, x: usize, y: usize, live: bool)
        requires column { x < 64 }
        requires row { y < 64 }
        ensures here { tile_cell self.new x y ≡ as_bit live }
        ensures elsewhere { (p q : ℕ) → p < 64 → (p ≢ x) ⊎ (q ≢ y) →
            tile_cell self.new p q ≡ tile_cell self.old p q }
    {
        let row = self.rows[y];
        self.rows[y] = if live {
            row | (1 << x)
        } else {
            row & !(1 << x)
        };
    }

    /// True where no cell is live.
    pub fn is_empty(&self) -> bool
        ensures { IsTrue result ↔ ((x y : ℕ) → x < 64 → y < 64 → tile_cell self.now x y ≡ 0) }
    {
        all_zero(&self.rows)
    }

    /// The next generation of this tile's 64 by 64 cells, among the 192 by 192 cells that they form with the tiles
    /// around. The rule decides by the number of live neighbours whether a live cell stays and whether a dead one is
    /// born.
    pub fn next(&self, around: &Around, rule: &Rule) -> Tile
        ensures { (x y : ℕ) → x < 64 → y < 64 →
            tile_cell result x y ≡ next_in_area rule.now (nine_of self.now around.now) x y }
    {
        let answers = Answers::of(rule);
        let mut rows = [0; 64];
        let mut up = Strand::of(
            around.north_west.rows[63],
            around.north.rows[63],
            around.north_east.rows[63],
        );
        let mut mid = Strand::of(around.west.rows[0], self.rows[0], around.east.rows[0]);
        for y in 0..63 {
            let down = Strand::of(
                around.west.rows[y + 1],
                self.rows[y + 1],
                around.east.rows[y + 1],
            );
            rows[y] = next_row_by(up, mid, down, &answers);
            up = mid;
            mid = down;
        }
        let down = Strand::of(
            around.south_west.rows[0],
            around.south.rows[0],
            around.south_east.rows[0],
        );
        rows[63] = next_row_by(up, mid, down, &answers);
        Tile { rows }
    }
}

impl Default for Tile {
    ghost use Rattle.std.specs.Prelude.{◌≡◌, ℕ};
    ghost use Rattle.life_plane.specs.Area.{tile_cell};

    ghost is_default = { λ tile. (x y : ℕ) → tile_cell tile x y ≡ 0 };

    fn default() -> Tile {
        Tile::EMPTY
    }
}

fn all_zero(words: &[u64]) -> bool
    ensures { IsTrue result ↔
        ((x y : ℕ) → x < 64 → y < length words.now → bit_at (slice_index words.now y) x ≡ 0) }
{
    words.iter().all(|word| *word == 0)
}
