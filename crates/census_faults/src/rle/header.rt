//! The header line of an RLE text, and the rule that it names.
ghost use Rattle.std.specs.Prelude.{◌≡◌, ◌≤◌, length};
ghost use Rattle.census_faults.specs.Rle.Places.{header_place};

use life_text::{after_rule_name, after_sizes, drop_blanks, line_end, skip_blanks, skip_spaces};

/// The place of the first byte that is neither blank nor LF nor in a line of comment, where the header line begins, or
/// the text's length.
pub fn header_place(text: &[u8]) -> usize
    ensures place { result ≡ header_place text.now }
    ensures within { result ≤ length text.now }
{
    skip_spaces(text, 0)
}

// The rule text of a header line, without the blanks at its ends.
fn rule_in_line(line: &[u8]) -> Option<&[u8]> {
    let behind = after_sizes(line)?;
    let text = after_rule_name(behind)?;
    Some(drop_blanks(skip_blanks(text)))
}

/// The rule text of the header, without the blanks at its ends. `None` where the header names no rule.
pub fn rule_in_header(text: &[u8]) -> Option<&[u8]> {
    let start = skip_spaces(text, 0);
    let end = line_end(text, start);
    rule_in_line(&text[start..end])
}
