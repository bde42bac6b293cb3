//! Cells of a list, 64 side by side.
ghost use Rattle.std.specs.Prelude.{◌≡◌, ℕ, ◌<◌, ◌+ℤ◌, pos, cond, T};
ghost use Rattle.std.specs.Int.{bit_at};
ghost use Rattle.life_model.specs.Generation.{is_rising};
ghost use Rattle.life_cells.specs.Limits.{IsPlace};
ghost use Rattle.life_plane.specs.Field.{has};

use crate::evolve::is_live;

/// The cell `places` places to the east.
fn east_of(cell: (i32, i32), places: u32) -> (i32, i32)
    requires placed { IsPlace cell }
    requires few { places < 64 }
    ensures { result ≡ (cell.0 +ℤ pos places, cell.1) }
{
    (cell.0 + places as i32, cell.1)
}

/// The cell and the 63 to the east of it. The bit of each is set if the list, which is in order, has it: the first
/// has bit 0.
pub fn row_of(cells: &[(i32, i32)], cell: (i32, i32)) -> u64
    requires rising { T (is_rising cells.now) }
    requires placed { IsPlace cell }
    ensures { (j : ℕ) → j < 64 →
        bit_at result j ≡ cond (has cells.now (cell.0 +ℤ pos j, cell.1)) 1 0 }
{
    let mut word = 0u64;
    let mut cursor = 0;
    for n in 0..64 {
        if is_live(cells, &mut cursor, east_of(cell, n)) {
            word |= 1 << n;
        }
    }
    word
}
