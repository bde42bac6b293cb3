//! The places of tiles among the cells.
ghost use Rattle.std.specs.Prelude.{◌≡◌, pos, ◌+ℤ◌, ◌<◌, ◌≤ℤ◌};
ghost use Rattle.life_slots.specs.Limits.{reach_limit};
ghost use Rattle.life_slots.specs.Places.{start_at, IsInside};

/// The number of columns and of rows by which the tiles are shifted to the north west, so that a pattern of up to 38 cells a
/// side that is read at `(0, 0)` is in one tile.
const STAND_OFF: i32 = 26;

/// The column of tiles that a column of cells is in, and its number among the 64 of that. It is used for rows too.
pub fn split(z: i32) -> (i32, usize)
    requires { z ≤ℤ pos reach_limit }
    ensures small { result.1 < 64 }
    ensures is { z ≡ (start_at result.0 +ℤ pos result.1) }
{
    let past = z + STAND_OFF;
    (past.div_euclid(64), past.rem_euclid(64) as usize)
}

/// The first cell of the tile at a place, the one in the north west.
pub fn corner_of(place: (i32, i32)) -> (i32, i32)
    requires { IsInside place }
    ensures { result ≡ (start_at place.0, start_at place.1) }
{
    (place.0 * 64 - STAND_OFF, place.1 * 64 - STAND_OFF)
}
