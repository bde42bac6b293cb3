//! The cells of a tile that are next to other tiles.
ghost use Rattle.std.specs.Prelude.{◌≡◌, ℕ, ◌<◌, ◌↔◌, true, false};
ghost use Rattle.std.specs.Int.{bit_at};
ghost use Rattle.life_plane.specs.declared.tile.Tile.{Tile};
ghost use Rattle.life_plane.specs.Area.{tile_cell};
ghost use Rattle.life_slots.specs.Rims.{IsEdge, IsRimOf, IsStill};

use life_plane::Tile;

/// The first and the last row of a tile, and the columns in which it has a live cell.
#[derive(Clone, Copy)]
pub struct Rim {
    pub first: u64,
    pub last: u64,
    pub columns: u64,
}

impl Rim {
    /// The rim of a tile.
    pub fn of(tile: &Tile) -> Rim
        ensures { IsRimOf result tile.now }
    {
        Rim {
            first: tile.rows[0],
            last: tile.rows[63],
            columns: live_columns(tile),
        }
    }

    /// True where a live cell is at the edge in one of the nine directions.
    pub fn reaches(&self, direction: usize) -> bool
        requires { direction < 9 }
        ensures still { (tile : Tile) → IsRimOf self.now tile → result ≡ false →
            IsStill tile direction }
        ensures live { (tile : Tile) → IsRimOf self.now tile → result ≡ true →
            IsStill tile direction → ⊥ }
    {
        let side = direction % 3;
        match direction / 3 {
            0 => has_at_side(self.first, side),
            1 => has_at_side(self.columns, side),
            _ => has_at_side(self.last, side),
        }
    }
}

/// True where one of 64 bits is set: of those next to the 64 bits before them, of all of them, or of those next to the 64
/// after.
pub fn has_at_side(bits: u64, side: usize) -> bool
    requires { side < 3 }
    ensures clear { result ≡ false → (x : ℕ) → x < 64 → IsEdge side x → bit_at bits x ≡ 0 }
    ensures set { result ≡ true → ((x : ℕ) → x < 64 → IsEdge side x → bit_at bits x ≡ 0) → ⊥ }
{
    match side {
        0 => bits & 1 == 1,
        1 => bits != 0,
        _ => bits >> 63 == 1,
    }
}

/// For each column, a bit that is set where one of its cells is live.
fn live_columns(tile: &Tile) -> u64
    ensures { (x : ℕ) → x < 64 →
        (bit_at result x ≡ 0) ↔ ((y : ℕ) → y < 64 → tile_cell tile.now x y ≡ 0) }
{
    let mut columns = 0;
    for row in &tile.rows {
        columns |= *row;
    }
    columns
}
