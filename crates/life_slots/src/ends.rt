//! The first and the last of the live cells, by y, then by x.
ghost use Rattle.std.specs.Prelude.{◌≡◌, ℕ, pos, ◌+ℤ◌, ◌<◌, ◌⊎◌, true, false, length, MatchOption};
ghost use Rattle.life_slots.specs.Ends.{AreEnds, AreJoined, IsFirstIn, IsLastIn, IsLiveAt, IsLiveIn, IsNoLater, IsVoid};
ghost use Rattle.life_slots.specs.Places.{start_at, IsInside};
ghost use Rattle.life_slots.specs.Slots.{place_of};

use crate::grid::corner_of;
use crate::slot::Slot;
use life_plane::{Tile, end_of_eights, first_eight};

/// The first and the last of some cells, by y, then by x.
#[derive(Clone, Copy)]
pub struct Ends {
    pub first: (i32, i32),
    pub last: (i32, i32),
}

/// True where a cell comes before another, by y, then by x.
pub fn is_before(cell: (i32, i32), other: (i32, i32)) -> bool
    ensures before { result ≡ true → IsNoLater cell other }
    ensures behind { result ≡ false → IsNoLater other cell }
{
    cell.1 < other.1 || (cell.1 == other.1 && cell.0 < other.0)
}

/// The one of two cells that comes first.
fn earlier(a: (i32, i32), b: (i32, i32)) -> (i32, i32)
    ensures one { (result ≡ a) ⊎ (result ≡ b) }
    ensures before_a { IsNoLater result a }
    ensures before_b { IsNoLater result b }
{
    if is_before(a, b) { a } else { b }
}

/// The one of two cells that comes last.
fn later(a: (i32, i32), b: (i32, i32)) -> (i32, i32)
    ensures one { (result ≡ a) ⊎ (result ≡ b) }
    ensures behind_a { IsNoLater a result }
    ensures behind_b { IsNoLater b result }
{
    if is_before(a, b) { b } else { a }
}

/// The first live cell of a tile by rows: its column and its row.
fn first_in(tile: &Tile) -> Option<(usize, usize)>
    ensures { MatchOption result (IsVoid tile.now) (λ at. IsFirstIn tile.now at.0 at.1) }
{
    for y in first_eight(tile)..64 {
        let row = tile.rows[y];
        if row != 0 {
            return Some((row.trailing_zeros() as usize, y));
        }
    }
    None
}

/// True where no cell of a tile is live.
pub fn is_void(tile: &Tile) -> bool
    ensures void { result ≡ true → IsVoid tile.now }
    ensures some { result ≡ false → IsVoid tile.now → ⊥ }
{
    first_in(tile).is_none()
}

/// The last live cell of a tile by rows: its column and its row.
fn last_in(tile: &Tile) -> Option<(usize, usize)>
    ensures { MatchOption result (IsVoid tile.now) (λ at. IsLastIn tile.now at.0 at.1) }
{
    let mut y = end_of_eights(tile);
    while y > 0 {
        y -= 1;
        let row = tile.rows[y];
        if row != 0 {
            return Some((63 - row.leading_zeros() as usize, y));
        }
    }
    None
}

/// The cell in a column and a row of the tile at a place.
fn cell_at(place: (i32, i32), x: usize, y: usize) -> (i32, i32)
    requires inside { IsInside place }
    requires column { x < 64 }
    requires row { y < 64 }
    ensures { result ≡ (start_at place.0 +ℤ pos x, start_at place.1 +ℤ pos y) }
{
    let corner = corner_of(place);
    (corner.0 + x as i32, corner.1 + y as i32)
}

impl Ends {
    /// The ends of the live cells of the tile at a place.
    fn of_tile(tile: &Tile, place: (i32, i32)) -> Option<Ends>
        requires { IsInside place }
        ensures { AreEnds (IsLiveIn tile.now place) result }
    {
        let (left, top) = first_in(tile)?;
        let (right, bottom) = last_in(tile)?;
        Some(Ends {
            first: cell_at(place, left, top),
            last: cell_at(place, right, bottom),
        })
    }

    /// The ends of these cells and of others together.
    fn joined(self, other: Ends) -> Ends
        ensures { AreJoined self other result }
    {
        Ends {
            first: earlier(self.first, other.first),
            last: later(self.last, other.last),
        }
    }
}

/// The ends of the live cells of the tiles of all slots but the first.
pub fn ends_of(slots: &[Slot], tiles: &[Tile]) -> Option<Ends>
    requires some { 0 < length slots.now }
    requires tiles { length tiles.now ≡ length slots.now }
    requires inside { (k : ℕ) → 0 < k → k < length slots.now → IsInside (place_of slots.now k) }
    ensures { AreEnds (IsLiveAt slots.now tiles.now (length slots.now)) result }
{
    let mut ends: Option<Ends> = None;
    for slot in 1..slots.len() {
        if let Some(more) = Ends::of_tile(&tiles[slot], slots[slot].place) {
            ends = match ends {
                Some(before) => Some(before.joined(more)),
                None => Some(more),
            };
        }
    }
    ends
}
