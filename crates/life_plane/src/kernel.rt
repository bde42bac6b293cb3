//! The next generation of eight rows of a tile.
ghost use Rattle.std.specs.Prelude.{◌≡◌, ℕ, ◌+◌, ◌<◌, ◌≤◌, ◌⊎◌, slice_index};
ghost use Rattle.std.specs.Int.{bit_at};
ghost use Rattle.life_model.specs.Rule.{Rule};
ghost use Rattle.life_plane.specs.Area.{tile_cell};
ghost use Rattle.life_plane.specs.Logics.{IsLogicOf};
ghost use Rattle.life_plane.specs.Windows.{next_in_window};
ghost use Rattle.life_plane.specs.Changes.{IsChange};

use crate::band_sums::BandSums;
use crate::logic::{Branch, Life, Logic};
use crate::tile::Tile;
use crate::window::Window;

/// The difference of eight rows from what was there before. Bit `x` is set where the cell in column `x` changed: in any
/// row in `all`, in the first row in `first`, and in the last row in `last`.
#[derive(Clone, Copy, PartialEq, Eq, Debug)]
pub struct Change {
    pub all: u64,
    pub first: u64,
    pub last: u64,
}

/// The next generation of the eight rows of a window.
#[inline(always)]
fn next_rows<B: Branch>(branch: &B, window: &Window) -> [u64; 8]
    requires { window.now.top ≤ 56 }
    ensures { (rule : Rule) → B.is_of branch.now rule → (x y : ℕ) → x < 64 → y < 8 →
        bit_at (slice_index result y) x ≡ next_in_window rule window.now x y }
{
    let sums = BandSums::of(window);
    let mut rows = [0; 8];
    for y in 0..8 {
        rows[y] = branch.next(window.here.rows[window.top + y], sums.count(y));
    }
    rows
}

/// Writes eight rows over those from `top` on, and returns what changed. Every other row is unchanged.
#[inline(always)]
fn replace(tile: &mut Tile, top: usize, next: &[u64; 8]) -> Change
    requires { top ≤ 56 }
    ensures rows { (y : ℕ) → y < 8 → slice_index tile.new.rows (top + y) ≡ slice_index next.now y }
    ensures others { (y : ℕ) → (y < top) ⊎ (top + 8 ≤ y) →
        slice_index tile.new.rows y ≡ slice_index tile.old.rows y }
    ensures change { IsChange result tile.old tile.new top }
{
    let first = tile.rows[top] ^ next[0];
    let last = tile.rows[top + 7] ^ next[7];
    let mut all = 0;
    for y in 0..8 {
        all |= tile.rows[top + y] ^ next[y];
        tile.rows[top + y] = next[y];
    }
    Change { all, first, last }
}

/// Writes the next generation of the eight rows of a window over rows `window.top` to `window.top + 7` of `out`, and
/// returns what changed there. Every other row of `out` is unchanged.
#[inline(always)]
pub fn band(logic: &Logic, window: &Window, out: &mut Tile) -> Change
    requires { window.now.top ≤ 56 }
    ensures next { (rule : Rule) → IsLogicOf logic.now rule → (x y : ℕ) → x < 64 → y < 8 →
        tile_cell out.new x (window.now.top + y) ≡ next_in_window rule window.now x y }
    ensures others { (y : ℕ) → (y < window.now.top) ⊎ (window.now.top + 8 ≤ y) →
        slice_index out.new.rows y ≡ slice_index out.old.rows y }
    ensures change { IsChange result out.old out.new window.now.top }
{
    let next = match logic {
        Logic::Life => next_rows(&Life, window),
        Logic::General(branch) => next_rows(branch, window),
    };
    replace(out, window.top, &next)
}
