//! The whole lines of a text.
ghost use Rattle.std.specs.Prelude.{◌≡◌, ◌≤◌, length};
ghost use Rattle.census_merge.specs.Feeds.{feeds};

// How many LFs a text has.
pub fn feeds(text: &[u8]) -> usize
    ensures value { result ≡ feeds text.now }
    ensures within { result ≤ length text.now }
{
    text.iter().filter(|byte| **byte == b'\n').count()
}
