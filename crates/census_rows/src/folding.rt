//! Signed numbers as numbers without a sign.
ghost use Rattle.std.specs.Prelude.{◌≡◌};
ghost use Rattle.census_rows.specs.Values.{folded, unfolded};

/// A signed number as one without a sign: those from 0 on become even, the others odd.
pub fn folded(number: i64) -> u64
    ensures { result ≡ folded number }
{
    let size = number.unsigned_abs();
    if number < 0 {
        (size - 1) * 2 + 1
    } else {
        size * 2
    }
}

/// The signed number that was folded to this one.
pub fn unfolded(number: u64) -> i64
    ensures { result ≡ unfolded number }
{
    let half = (number / 2) as i64;
    if number % 2 == 0 { half } else { -half - 1 }
}
