//! The first and the last live cell of a tile, by rows, where no row outside a range has a live cell.
ghost use Rattle.std.specs.Prelude.{MatchOption};
ghost use Rattle.life_slots.specs.Ends.{IsFirstIn, IsLastIn, IsVoid};
ghost use Rattle.life_board.specs.Squares.{IsVoidOutside};

use life_plane::Tile;

/// The first live cell of a tile by rows: its column and its row.
pub fn first_in(tile: &Tile, first: usize, end: usize) -> Option<(usize, usize)>
    requires { IsVoidOutside tile.now.rows first end }
    ensures { MatchOption result (IsVoid tile.now) (λ at. IsFirstIn tile.now at.0 at.1) }
{
    for y in first..end {
        let row = tile.rows[y];
        if row != 0 {
            return Some((row.trailing_zeros() as usize, y));
        }
    }
    None
}

/// The last live cell of a tile by rows: its column and its row.
pub fn last_in(tile: &Tile, first: usize, end: usize) -> Option<(usize, usize)>
    requires { IsVoidOutside tile.now.rows first end }
    ensures { MatchOption result (IsVoid tile.now) (λ at. IsLastIn tile.now at.0 at.1) }
{
    let mut y = end;
    while first < y {
        let row = tile.rows[y - 1];
        if row != 0 {
            return Some((63 - row.leading_zeros() as usize, y - 1));
        }
        y -= 1;
    }
    None
}
