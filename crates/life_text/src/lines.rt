//! Lines of at most 70 characters.
ghost use Rattle.std.specs.Prelude.{◌≡◌, ℕ, ◌+◌, ◌≤◌, ◌<◌, List, [], ◌∷◌, ◌++◌, length, map, IfOk, decimal};
ghost use Rattle.life_text.specs.Filled.{filled_lines};
ghost use Rattle.life_text.specs.RleText.{token_text};
ghost use Rattle.life_text.specs.Writer.{with_token};

use itoa::Buffer;
use std::alloc::AllocError;

// Puts digits and a tag on the line, which has `used` characters, or on a new one. Returns the number of characters
// that the tag's line then has.
fn put_piece(out: &mut Vec<u8>, used: usize, digits: &[u8], tag: u8) -> Result<usize, AllocError>
    requires used { used ≤ 70 }
    requires short { length digits.now ≤ 40 }
    ensures written { IfOk result (λ now. (rest : List (List ℕ)) →
        out.old.items ++ filled_lines used ((digits.now ++ tag ∷ []) ∷ rest) ≡
        out.new.items ++ filled_lines now rest) }
    ensures within { IfOk result (λ now. now ≤ 70) }
{
    let len = digits.len() + 1;
    if used + len <= 70 {
        out.extend_from_slice(digits)?;
        out.push(tag)?;
        Ok(used + len)
    } else {
        out.push(b'\n')?;
        out.extend_from_slice(digits)?;
        out.push(tag)?;
        Ok(len)
    }
}

/// Puts a token on the line, which has `used` characters, or on a new one. Returns the number of characters that the
/// token's line then has. With a count of 0 there is no token, and a count of 1 isn't written.
pub fn put_token(out: &mut Vec<u8>, used: usize, count: u32, tag: u8) -> Result<usize, AllocError>
    requires { used ≤ 70 }
    ensures written { IfOk result (λ now. (tokens : List (ℕ × ℕ)) →
        out.old.items ++ filled_lines used (map token_text (with_token count tag tokens)) ≡
        out.new.items ++ filled_lines now (map token_text tokens)) }
    ensures within { IfOk result (λ now. now ≤ 70) }
{
    if count == 0 {
        return Ok(used);
    }
    if count == 1 {
        return put_piece(out, used, b"", tag);
    }
    let mut buffer = Buffer::new();
    put_piece(out, used, buffer.format(count).as_bytes(), tag)
}
