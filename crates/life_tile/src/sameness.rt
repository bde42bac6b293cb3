//! The test of whether the cells of a store are given cells, moved as a whole.
ghost use Rattle.std.specs.Prelude.{◌≡◌, ◌↔◌, All, IfNone, IfSome, IsTrue, T};
ghost use Rattle.life_model.specs.Cell.{opposite, plus};
ghost use Rattle.life_model.specs.Generation.{contains, from_list, is_rising};
ghost use Rattle.life_cells.specs.Limits.{IsPlace};
ghost use Rattle.life_plane.specs.Offsets.{AreNotTranslates, IsOffset};
ghost use Rattle.life_slots.specs.Ends.{IsMember};
ghost use Rattle.life_tile.specs.Reach.{IsInReach};
ghost use Rattle.life_tile.specs.TileStores.{IsKept, members_of};

use crate::changed::lists_changed;
use crate::covering::has_store;
use crate::tile_store::TileStore;
use life_plane::move_between;
use life_slots::{slot_or_none, split, tile_in};

/// True where a cell is live.
fn is_live(store: &TileStore, cell: (i32, i32)) -> bool
    requires kept { IsKept store.now }
    requires reach { IsInReach cell }
    ensures { result ≡ contains (members_of store.now) cell }
{
    let (column, x) = split(cell.0);
    let (row, y) = split(cell.1);
    let slot = slot_or_none(&store.index, (column, row));
    tile_in(&store.current, slot as usize).get(x, y)
}

/// The cell after the move from one place to another.
pub fn moved(cell: (i32, i32), from: (i32, i32), to: (i32, i32)) -> (i32, i32)
    requires cell { IsPlace cell }
    requires from { IsPlace from }
    requires to { IsPlace to }
    ensures is { result ≡ plus cell (plus to (opposite from)) }
    ensures reach { IsInReach result }
{
    (cell.0 - from.0 + to.0, cell.1 - from.1 + to.1)
}

/// True where each of some cells is live after the move from one place to another.
fn are_live(store: &TileStore, cells: &[(i32, i32)], from: (i32, i32), to: (i32, i32)) -> bool
    requires kept { IsKept store.now }
    requires placed { All IsPlace cells.now }
    requires from { IsPlace from }
    requires to { IsPlace to }
    ensures { IsTrue result ↔ All
        (λ c. IsMember (members_of store.now) (plus c (plus to (opposite from)))) cells.now }
{
    for cell in cells {
        if !is_live(store, moved(*cell, from, to)) {
            return false;
        }
    }
    true
}

/// The offset of the live cells from those of a list, if they are those moved as a whole. They are if their number is
/// the same and each cell of the list is live after the move that takes the first of them to the first live cell. The
/// cells that may have changed are examined first.
pub fn offset_from(store: &TileStore, cells: &[(i32, i32)]) -> Option<(i32, i32)>
    requires kept { IsKept store.now }
    requires rising { T (is_rising cells.now) }
    requires placed { All IsPlace cells.now }
    ensures offset { IfSome result (λ d. IsOffset (from_list cells.now) (members_of store.now) d) }
    ensures apart { IfNone result (AreNotTranslates (from_list cells.now) (members_of store.now)) }
{
    if store.population() != cells.len() as u64 {
        return None;
    }
    match store.ends() {
        None => Some((0, 0)),
        Some(ends) => {
            let from = cells[0];
            if !lists_changed(store, cells, ends.first, from) {
                return None;
            }
            if !are_live(store, cells, from, ends.first) {
                return None;
            }
            Some(move_between(from, ends.first))
        }
    }
}

/// The offset of the live cells from those of another store, if they are those moved as a whole. They are if their
/// number is the same and each cell of the other is live after the move that takes the first of them to the first live
/// cell.
pub fn offset_from_store(store: &TileStore, other: &TileStore) -> Option<(i32, i32)>
    requires kept { IsKept store.now }
    requires other { IsKept other.now }
    ensures offset { IfSome result (λ d. IsOffset (members_of other.now) (members_of store.now) d) }
    ensures apart { IfNone result (AreNotTranslates (members_of other.now) (members_of store.now)) }
{
    if store.population() != other.population() {
        return None;
    }
    match other.ends() {
        None => Some((0, 0)),
        Some(from) => match store.ends() {
            None => Some((0, 0)),
            Some(to) => {
                if !has_store(store, other, from.first, to.first) {
                    return None;
                }
                Some(move_between(from.first, to.first))
            }
        },
    }
}
