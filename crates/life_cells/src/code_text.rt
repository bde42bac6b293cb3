//! Codes as texts: their bodies and their order.
ghost use Rattle.std.specs.Prelude.{◌≡◌, ◌<◌, ◌==◌, IfSome, length, position};
ghost use Rattle.life_cells.specs.TextOrder.{body_of, shorter_cmp};

use std::cmp::Ordering;

// The place of the first `_`.
fn mark(code: &[u8]) -> Option<usize>
    ensures value { result ≡ position (λ c. c == 95) code.now }
    ensures within { IfSome result (λ at. at < length code.now) }
{
    code.iter().position(|byte| *byte == b'_')
}

/// The bytes after the first `_`, or all bytes if there is none.
pub fn body_of(code: &[u8]) -> &[u8]
    ensures { result.now ≡ body_of code.now }
{
    match mark(code) {
        Some(at) => &code[at + 1..],
        None => code,
    }
}

/// The order of codes: by length, then by bytes.
pub fn shorter(one: &[u8], other: &[u8]) -> Ordering
    ensures { result ≡ shorter_cmp one.now other.now }
{
    one.len().cmp(&other.len()).then(one.cmp(other))
}
