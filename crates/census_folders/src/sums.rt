//! The number of bytes that may be read in all, where there is a limit.
ghost use Rattle.std.specs.Prelude.{◌≡◌};
ghost use Rattle.census_folders.specs.Sums.{Fits, limit_after, most_of};

use census_bundle::INPUT_LIMIT;

// The greatest number of bytes of the next file, where `left` bytes may still be read in all.
pub fn most_of(left: Option<u64>) -> usize
    ensures { result ≡ most_of left }
{
    match left {
        Some(left) => left.min(INPUT_LIMIT as u64) as usize,
        None => INPUT_LIMIT,
    }
}

// The number of bytes that may still be read after `count` bytes.
pub fn limit_after(left: Option<u64>, count: usize) -> Option<u64>
    requires { Fits left count }
    ensures { result ≡ limit_after left count }
{
    match left {
        Some(left) => Some(left - count as u64),
        None => None,
    }
}
