//! The header line of RLE texts.
ghost use Rattle.std.specs.Prelude.{◌≡◌, ◌<◌, ◌≤◌, ◌+◌, ◌∷◌, ◌++◌, ◌==◌, [], IfSome, IsTrue, Some, length, drop, take, codes};
ghost use Rattle.std.specs.List.{prefix_len, suffix_len, list_all};
ghost use Rattle.std.specs.Option.{option_copied};
ghost use Rattle.texts.specs.Bytes.{is_blank, is_digit, without_front, without_back, without_ends, after_one_of};
ghost use Rattle.life_text.specs.Sizes.{after_number};
ghost use Rattle.life_text.specs.Rle.{part, after_size, after_sizes, after_rule_name, rule_or_fault, named_rule, rule_behind, line_rule};

use crate::bytes::{is_blank, is_digit};
use crate::rle::RleFault;
use life_cells::{Rule, after_byte, after_either};

/// The text without the blanks, tabs and CRs at its start.
pub fn skip_blanks(text: &[u8]) -> &[u8]
    ensures { result.now ≡ without_front is_blank text.now }
{
    for (i, byte) in text.iter().enumerate() {
        if !is_blank(*byte) {
            return &text[i..];
        }
    }
    &text[text.len()..]
}

/// The text without the blanks, tabs and CRs at its end.
pub fn drop_blanks(text: &[u8]) -> &[u8]
    ensures { result.now ≡ without_back is_blank text.now }
{
    let mut end = text.len();
    while end > 0 && is_blank(text[end - 1]) {
        end -= 1;
    }
    &text[..end]
}

// The number of digits at the start of a text.
fn count_digits(text: &[u8]) -> usize
    ensures value { result ≡ prefix_len is_digit text.now }
    ensures within { result ≤ length text.now }
{
    for (i, byte) in text.iter().enumerate() {
        if !is_digit(*byte) {
            return i;
        }
    }
    text.len()
}

// The text after one of two bytes, which may have blanks before it.
fn part_either<'a>(text: &'a [u8], one: u8, other: u8) -> Option<&'a [u8]>
    ensures { option_copied result ≡ part (one ∷ other ∷ []) text.now }
{
    after_either(skip_blanks(text), one, other)
}

// The text after a byte, which may have blanks before it.
fn part_byte<'a>(text: &'a [u8], byte: u8) -> Option<&'a [u8]>
    ensures { option_copied result ≡ part (byte ∷ []) text.now }
{
    after_byte(skip_blanks(text), byte)
}

// The text after one or more digits.
fn after_number(text: &[u8]) -> Option<&[u8]>
    ensures { option_copied result ≡ after_number text.now }
{
    let count = count_digits(text);
    if count == 0 {
        return None;
    }
    Some(&text[count..])
}

// The text after one or more digits, which may have blanks before them.
fn after_size(text: &[u8]) -> Option<&[u8]>
    ensures { option_copied result ≡ after_size text.now }
{
    after_number(skip_blanks(text))
}

// The text after sizes in the form that this program writes.
fn after_written_sizes(line: &[u8]) -> Option<&[u8]>
    ensures { IfSome result (λ rest. after_sizes line.now ≡ Some rest.now) }
{
    let width = line.strip_prefix(b"x = ")?;
    let comma = after_number(width)?;
    let height = comma.strip_prefix(b", y = ")?;
    after_number(height)
}

/// The text after `x = W, y = H` at the start of a line. `None` if the line has no such start.
pub fn after_sizes(line: &[u8]) -> Option<&[u8]>
    ensures { option_copied result ≡ after_sizes line.now }
{
    if let Some(rest) = after_written_sizes(line) {
        return Some(rest);
    }
    let width_name = part_either(line, b'x', b'X')?;
    let width_equals = part_byte(width_name, b'=')?;
    let width = after_size(width_equals)?;
    let comma = part_byte(width, b',')?;
    let height_name = part_either(comma, b'y', b'Y')?;
    let height_equals = part_byte(height_name, b'=')?;
    after_size(height_equals)
}

/// The text after `, rule =` at the start of what follows the sizes. `None` if there is no such start.
pub fn after_rule_name(text: &[u8]) -> Option<&[u8]>
    ensures { option_copied result ≡ after_rule_name text.now }
{
    let comma = part_byte(text, b',')?;
    let r = part_either(comma, b'r', b'R')?;
    let u = after_either(r, b'u', b'U')?;
    let l = after_either(u, b'l', b'L')?;
    let e = after_either(l, b'e', b'E')?;
    part_byte(e, b'=')
}

// The rule that a text names, or its fault as one of a header.
fn named_rule(text: &[u8]) -> Result<Rule, RleFault>
    ensures { result ≡ named_rule (Some text.now) }
{
    match Rule::parse(drop_blanks(skip_blanks(text))) {
        Ok(rule) => Ok(rule),
        Err(fault) => Err(RleFault::Rule(fault)),
    }
}

// True where a text is only blanks.
fn is_blanks(text: &[u8]) -> bool
    ensures { result ≡ list_all is_blank text.now }
{
    text.iter().all(|byte| is_blank(*byte))
}

// True only where the text after the sizes is what this program writes for Life.
fn is_written_life(rest: &[u8]) -> bool
    ensures { IsTrue result → rest.now ≡ codes ", rule = B3/S23" }
{
    rest == b", rule = B3/S23".as_slice()
}

/// The rule of a header line, or its fault.
pub fn line_rule(line: &[u8]) -> Result<Rule, RleFault>
    ensures { result ≡ line_rule line.now }
{
    if after_either(line, b'x', b'X').is_none() {
        return Err(RleFault::NoHeader);
    }
    let Some(rest) = after_sizes(line) else {
        return Err(RleFault::BadHeader);
    };
    if is_written_life(rest) || is_blanks(rest) {
        return Ok(Rule::life());
    }
    match after_rule_name(rest) {
        Some(text) => named_rule(text),
        None => Err(RleFault::BadHeader),
    }
}
