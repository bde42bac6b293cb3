//! A limit on the bytes of all texts.
ghost use Rattle.std.specs.Prelude.{◌≡◌};
ghost use Rattle.census_reports.specs.Texts.{left_behind};

// What is left of a limit after `count` bytes, where they are within it.
pub fn left_behind(left: Option<u64>, count: usize) -> Option<Option<u64>>
    ensures { result ≡ left_behind left count }
{
    let Some(most) = left else {
        return Some(None);
    };
    if count as u64 <= most {
        Some(Some(most - count as u64))
    } else {
        None
    }
}
