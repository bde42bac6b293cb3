//! The cells that eight rows of a tile depend on.
ghost use Rattle.std.specs.Prelude.{◌≡◌, ℕ, ◌+◌, ◌<◌, ◌≤◌};
ghost use Rattle.life_plane.specs.Area.{nine_of, three_wide};
ghost use Rattle.life_plane.specs.Rows.{IsRowSumsOf};
ghost use Rattle.life_plane.specs.Windows.{triple_strip, window_row, IsWindowOf};

use crate::row_sums::{RowSums, sums};
use crate::tile::{Around, Tile};

/// One row of three tiles side by side.
#[derive(Clone, Copy, PartialEq, Eq, Debug)]
pub struct RowTriple {
    pub west: u64,
    pub here: u64,
    pub east: u64,
}

impl RowTriple {
    /// Row `y` of three tiles.
    #[inline(always)]
    fn of(west: &Tile, here: &Tile, east: &Tile, y: usize) -> RowTriple
        requires { y < 64 }
        ensures { triple_strip result ≡ three_wide west.now here.now east.now y }
    {
        RowTriple {
            west: west.rows[y],
            here: here.rows[y],
            east: east.rows[y],
        }
    }

    /// The sums of the middle 64 cells.
    #[inline(always)]
    pub fn sums(self) -> RowSums
        ensures { IsRowSumsOf result (triple_strip self) }
    {
        sums(self.west, self.here, self.east)
    }
}

/// The cells that eight rows of a tile depend on: rows `top` to `top + 7` of the tile and of the tiles to its west and
/// its east, and for all three the row above these and the row below, which may be rows of other tiles.
#[derive(Clone, Copy)]
pub struct Window<'a> {
    pub above: RowTriple,
    pub west: &'a Tile,
    pub here: &'a Tile,
    pub east: &'a Tile,
    pub below: RowTriple,
    pub top: usize,
}

impl<'a> Window<'a> {
    /// The window of rows `top` to `top + 7` of a tile among the tiles around it.
    #[inline(always)]
    pub fn of(tile: &'a Tile, around: &Around<'a>, top: usize) -> Window<'a>
        requires { top ≤ 56 }
        ensures { IsWindowOf result (nine_of tile.now around.now) top }
    {
        let above = if top == 0 {
            RowTriple::of(around.north_west, around.north, around.north_east, 63)
        } else {
            RowTriple::of(around.west, tile, around.east, top - 1)
        };
        let below = if top == 56 {
            RowTriple::of(around.south_west, around.south, around.south_east, 0)
        } else {
            RowTriple::of(around.west, tile, around.east, top + 8)
        };
        Window {
            above,
            west: around.west,
            here: tile,
            east: around.east,
            below,
            top,
        }
    }

    /// The sums of row `y` of the eight.
    #[inline(always)]
    pub fn row(&self, y: usize) -> RowSums
        requires top { self.now.top ≤ 56 }
        requires y { y < 8 }
        ensures { IsRowSumsOf result (window_row self.now (y + 1)) }
    {
        RowTriple::of(self.west, self.here, self.east, self.top + y).sums()
    }
}
