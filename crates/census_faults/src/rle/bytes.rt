//! Counts of bytes.
ghost use Rattle.std.specs.Prelude.{◌≡◌, ◌≤◌, ◌==◌, length, not};
ghost use Rattle.std.specs.List.{suffix_len};
ghost use Rattle.census_faults.specs.Rle.Places.{times_in};

/// The number of times that a byte occurs in a text.
pub fn count_of(text: &[u8], byte: u8) -> usize
    ensures value { result ≡ times_in byte text.now }
    ensures within { result ≤ length text.now }
{
    let mut count = 0;
    let mut next = 0;
    while next < text.len() {
        if text[next] == byte {
            count += 1;
        }
        next += 1;
    }
    count
}

/// The number of bytes after the last LF of a text.
pub fn last_line_len(text: &[u8]) -> usize
    ensures value { result ≡ suffix_len (λ c. not (c == 10)) text.now }
    ensures within { result ≤ length text.now }
{
    let mut start = text.len();
    while start > 0 && text[start - 1] != b'\n' {
        start -= 1;
    }
    text.len() - start
}
