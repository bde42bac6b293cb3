//! Laws of the kernels that compute 64 cells at a time: their sum at a column is the number of live neighbours of the cell
//! there, and their results are rows of the next generation on the unbounded plane.

ghost use Rattle.std.specs.Prelude.{◌≡◌, ℕ, ℤ, pos, ◌+◌, ◌+ℤ◌, ◌<◌, ◌≤◌};
ghost use Rattle.std.specs.Int.{bit_at};
ghost use Rattle.life_model.specs.Generation.{Generation};
ghost use Rattle.life_model.specs.Evolution.{count, next};
ghost use Rattle.life_model.specs.Rule.{Rule};
ghost use Rattle.life_plane.specs.declared.strand.Strand.{Strand};
ghost use Rattle.life_plane.specs.Area.{Nine, area_cell, next_in_area, sum_around};
ghost use Rattle.life_plane.specs.Bits.{IsStrandOf, neighbour_count, next_state};
ghost use Rattle.life_plane.specs.declared.window.Window.{Window};
ghost use Rattle.life_plane.specs.Windows.{IsWindowOf, next_in_window, window_cell};
ghost use Rattle.life_slots.specs.Kernels.Rows.{AreRowsAt, IsNineAt, IsWindowAt, state};

/// For strands of three rows of a set, one below another, the number of set neighbours at a column is the number of live
/// neighbours of the cell there, and the next state that a rule gives to the bit with that number is the cell in the next
/// generation.
pub fn strands_tell_the_next_generation()
    ensures count { (G : Generation) (left y : ℤ) (above here below : ℕ) (up mid down : Strand) →
        AreRowsAt G (record { left = left; y = y; above = above; here = here; below = below }) →
        IsStrandOf up above → IsStrandOf mid here → IsStrandOf down below → (j : ℕ) → j < 64 →
        neighbour_count up mid down j ≡ count G (left +ℤ pos j, y) }
    ensures next { (R : Rule) (G : Generation) (left y : ℤ) (above here below : ℕ)
        (up mid down : Strand) →
        AreRowsAt G (record { left = left; y = y; above = above; here = here; below = below }) →
        IsStrandOf up above → IsStrandOf mid here → IsStrandOf down below → (j : ℕ) → j < 64 →
        next_state R (bit_at mid.here j) (neighbour_count up mid down j) ≡
        state (next R G) (left +ℤ pos j, y) }
{}

/// For a window of eight rows of a set, the sum around a column of a row is the number of live neighbours of the cell there, and
/// the next state there is the cell in the next generation.
pub fn windows_tell_the_next_generation()
    ensures count { (G : Generation) (left top : ℤ) (window : Window) →
        IsWindowAt G left top window → (x y : ℕ) → x < 64 → y < 8 →
        sum_around (window_cell window) (x + 63) y ≡ count G (left +ℤ pos x, top +ℤ pos y) }
    ensures next { (R : Rule) (G : Generation) (left top : ℤ) (window : Window) →
        IsWindowAt G left top window → (x y : ℕ) → x < 64 → y < 8 →
        next_in_window R window x y ≡ state (next R G) (left +ℤ pos x, top +ℤ pos y) }
{}

/// For a tile of a set and the eight around it, and for all 64 rows of the tile, the sum around a column of a row is the number
/// of live neighbours of the cell there, and the next state there is the cell in the next generation. A window of eight of its
/// rows is a window of the set.
pub fn tiles_tell_the_next_generation()
    ensures count { (G : Generation) (left top : ℤ) (nine : Nine) → IsNineAt G left top nine →
        (x y : ℕ) → x < 64 → y < 64 →
        sum_around (area_cell nine) (x + 63) (y + 63) ≡ count G (left +ℤ pos x, top +ℤ pos y) }
    ensures next { (R : Rule) (G : Generation) (left top : ℤ) (nine : Nine) →
        IsNineAt G left top nine → (x y : ℕ) → x < 64 → y < 64 →
        next_in_area R nine x y ≡ state (next R G) (left +ℤ pos x, top +ℤ pos y) }
    ensures window { (G : Generation) (left top : ℤ) (nine : Nine) (window : Window) (from : ℕ) →
        IsNineAt G left top nine → from ≤ 56 →
        IsWindowOf window nine from → IsWindowAt G left (top +ℤ pos from) window }
{}

/// Whatever bits three rows, a window or nine tiles have, and wherever they are, some set has these cells.
pub fn each_row_is_of_a_set()
    ensures rows { (left y : ℤ) (above here below : ℕ) → (G : Generation) ×
        AreRowsAt G (record { left = left; y = y; above = above; here = here; below = below }) }
    ensures window { (left top : ℤ) (window : Window) → (G : Generation) ×
        IsWindowAt G left top window }
    ensures tiles { (left top : ℤ) (nine : Nine) → (G : Generation) × IsNineAt G left top nine }
{}
