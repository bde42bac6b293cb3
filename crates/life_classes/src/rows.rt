//! The rows of cells in order.
ghost use Rattle.std.specs.Prelude.{◌≡◌, ◌≤ℤ◌, Bool, T, filter, true};
ghost use Rattle.life_model.specs.Cell.{Cell};
ghost use Rattle.life_model.specs.Generation.{is_rising};

/// The cells in the rows from `top` to `bottom`.
///
/// For a test that only cells in these rows pass, no cell that passes it is left out.
pub fn rows(cells: &[(i32, i32)], top: i64, bottom: i64) -> &[(i32, i32)]
    requires { T (is_rising cells.now) }
    ensures { (p : Cell → Bool) → ((c : Cell) → p c ≡ true → (top ≤ℤ c.1) × (c.1 ≤ℤ bottom)) →
        filter p result.now ≡ filter p cells.now }
{
    let start = cells.partition_point(|cell| i64::from(cell.1) < top);
    let from = &cells[start..];
    let count = from.partition_point(|cell| i64::from(cell.1) <= bottom);
    &from[..count]
}
