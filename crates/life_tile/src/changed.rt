//! A quick test of whether the cells of a store that may have changed are given cells, moved as a whole.
ghost use Rattle.std.specs.Prelude.{◌≡◌, ℕ, pos, ◌+ℤ◌, false, T};
ghost use Rattle.life_model.specs.Cell.{Cell, opposite, plus};
ghost use Rattle.life_model.specs.Generation.{contains, from_list, is_rising};
ghost use Rattle.life_cells.specs.Limits.{IsPlace};
ghost use Rattle.life_slots.specs.Ends.{IsMember};
ghost use Rattle.life_tile.specs.Reach.{IsInReach, IsRowIn, IsTileIn};
ghost use Rattle.life_tile.specs.TileStores.{IsKept, members_of};

use crate::covering::corner_in;
use crate::sameness::moved;
use crate::tile_store::TileStore;
use life_plane::Tile;
use life_slots::{is_before, tile_in};

/// False only if a cell is not in a list, which is searched by halving.
fn is_listed(cells: &[(i32, i32)], cell: (i32, i32)) -> bool
    requires { T (is_rising cells.now) }
    ensures { result ≡ false → contains (from_list cells.now) cell ≡ false }
{
    let mut low = 0;
    let mut high = cells.len();
    while low < high {
        let middle = low + (high - low) / 2;
        let there = cells[middle];
        if there.0 == cell.0 && there.1 == cell.1 {
            return true;
        }
        if is_before(there, cell) {
            low = middle + 1;
        } else {
            high = middle;
        }
    }
    false
}

/// False only if some set bit of a word is no listed cell. Bit 0 is at `start`.
fn lists_row(cells: &[(i32, i32)], word: u64, start: (i32, i32)) -> bool
    requires rising { T (is_rising cells.now) }
    requires reach { IsInReach start }
    ensures { result ≡ false → IsRowIn (from_list cells.now) word start → ⊥ }
{
    let mut rest = word;
    while rest != 0 {
        let x = rest.trailing_zeros();
        if !is_listed(cells, (start.0 + x as i32, start.1)) {
            return false;
        }
        rest &= !(1 << x);
    }
    true
}

/// False only if some live cell of a tile, whose first cell is at `corner`, is not listed after the move from one place
/// to another.
fn lists_tile(
    cells: &[(i32, i32)],
    tile: &Tile,
    corner: (i32, i32),
    from: (i32, i32),
    to: (i32, i32),
) -> bool
    requires rising { T (is_rising cells.now) }
    requires corner { IsPlace corner }
    requires lower { IsPlace (corner.0, corner.1 +ℤ pos 63) }
    requires from { IsPlace from }
    requires to { IsPlace to }
    ensures { result ≡ false →
        IsTileIn (from_list cells.now) tile.now corner (plus to (opposite from)) → ⊥ }
{
    for y in 0..64 {
        let start = moved((corner.0, corner.1 + y as i32), from, to);
        if !lists_row(cells, tile.rows[y], start) {
            return false;
        }
    }
    true
}

/// False only if some live cell of the active tiles is not listed after the move from one place to another. Then the
/// live cells are not all listed after that move.
pub fn lists_changed(
    store: &TileStore,
    cells: &[(i32, i32)],
    from: (i32, i32),
    to: (i32, i32),
) -> bool
    requires kept { IsKept store.now }
    requires rising { T (is_rising cells.now) }
    requires from { IsPlace from }
    requires to { IsPlace to }
    ensures { result ≡ false →
        ((c : Cell) → IsMember (members_of store.now) c →
        IsMember (from_list cells.now) (plus c (plus to (opposite from)))) → ⊥ }
{
    for slot in 1..store.slots.len() {
        if !store.is_idle(slot) {
            let tile = tile_in(&store.current, slot);
            if !lists_tile(cells, tile, corner_in(store, slot), from, to) {
                return false;
            }
        }
    }
    true
}
