//! The tokens of RLE texts, as the reader finds them.
ghost use Rattle.std.specs.Prelude.{◌&&◌, ◌+◌, ◌<◌, ◌==◌, ◌≡◌, ◌≤◌, IfSome, None, Some, false, length, min, not, slice_index, true};
ghost use Rattle.std.specs.List.{prefix_len, take_while};
ghost use Rattle.std.specs.Str.Parse.{digits_value};
ghost use Rattle.texts.specs.Bytes.{is_digit, is_space, without_front};
ghost use Rattle.life_text.specs.Found.{BeginsWithToken, token_found};
ghost use Rattle.life_text.specs.Reader.{IsPlain, count_cap, is_in_comment, plain_at};
ghost use Rattle.life_text.specs.Rle.{is_bad_run, is_cells, is_live, is_missing, is_no_tag, is_other_state, is_row_end, lexemes};

use crate::bytes::{is_digit, is_letter, is_space};

/// A token as it is found: where it begins, whether it has a count, that count, capped, or 1, and the place and the
/// byte of its tag. Without a tag, `tag` is `None`.
#[derive(Clone, Copy)]
pub struct Found {
    pub at: usize,
    pub counted: bool,
    pub times: u32,
    pub tag_at: usize,
    pub tag: Option<u8>,
}

/// A number greater than any place and any number of live cells.
pub const CAP: u32 = 2_097_152;

// True where a byte is in a comment line, given whether the byte before it is.
fn is_inside(comment: bool, before: u8, byte: u8) -> bool
    ensures { result ≡ is_in_comment comment before byte }
{
    if before == b'\n' {
        byte == b'#'
    } else {
        comment
    }
}

// True where a byte is not passed over.
fn stops(inside: bool, byte: u8) -> bool
    ensures { result ≡ (not inside && not (is_space byte)) }
{
    !inside && !is_space(byte)
}

// True where a byte is neither blank nor LF and starts no comment.
#[inline(always)]
fn is_word(byte: u8) -> bool
    ensures { result ≡ (not (is_space byte) && not (byte == 35)) }
{
    !is_space(byte) && byte != b'#'
}

/// The place of the first byte that is neither blank nor LF nor in a comment line, from a place on that is in no
/// comment line.
pub fn skip_spaces(text: &[u8], from: usize) -> usize
    requires { from ≤ length text.now }
    ensures from { from ≤ result }
    ensures within { result ≤ length text.now }
    ensures place { result ≡ from + prefix_len is_space (plain_at text.now from) }
    ensures rest { without_front is_space (plain_at text.now from) ≡ plain_at text.now result }
    ensures stops { result < length text.now → IsPlain text.now result }
{
    if from < text.len() && is_word(text[from]) {
        return from;
    }
    let mut comment = false;
    let mut before = if from == 0 { b'\n' } else { text[from - 1] };
    for at in from..text.len() {
        let byte = text[at];
        let inside = is_inside(comment, before, byte);
        if stops(inside, byte) {
            return at;
        }
        comment = inside;
        before = byte;
    }
    text.len()
}

// The value of the digits from a place on, capped, and the place after them.
fn read_count(text: &[u8], at: usize) -> (u32, usize)
    requires { at ≤ length text.now }
    ensures behind { at ≤ result.1 }
    ensures within { result.1 ≤ length text.now }
    ensures value { result.0 ≡
        min (digits_value 10 (take_while is_digit (plain_at text.now at))) count_cap }
    ensures rest { lexemes true at (plain_at text.now at) ≡
        lexemes false result.1 (plain_at text.now result.1) }
{
    let mut value: u32 = 0;
    let mut next = at;
    while next < text.len() && is_digit(text[next]) {
        value = (value * 10 + u32::from(text[next] - b'0')).min(CAP);
        next += 1;
    }
    (value, next)
}

/// A tag without a count.
#[inline(always)]
pub fn tag_alone(at: usize, tag: u8) -> Found
    ensures { result ≡ record { at = at; counted = false; times = 1; tag_at = at; tag = Some tag } }
{
    Found {
        at,
        counted: false,
        times: 1,
        tag_at: at,
        tag: Some(tag),
    }
}

// A count with no tag.
fn count_alone(at: usize, times: u32) -> Found
    ensures { result ≡ record { at = at; counted = true; times = times; tag_at = at; tag = None } }
{
    Found {
        at,
        counted: true,
        times,
        tag_at: at,
        tag: None,
    }
}

/// The token that begins with the digit at a place.
#[inline(always)]
pub fn counted_token(text: &[u8], at: usize) -> Found
    requires within { at < length text.now }
    requires digit { is_digit (slice_index text.now at) ≡ true }
    ensures begins { BeginsWithToken text.now at result }
    ensures tag_within { IfSome result.tag
        (λ _. (at ≤ result.tag_at) × (result.tag_at < length text.now)) }
    ensures counted { result.counted ≡ true }
    ensures few { result.times ≤ count_cap }
{
    let (times, behind) = read_count(text, at);
    let tag_at = skip_spaces(text, behind);
    if tag_at == text.len() {
        return count_alone(at, times);
    }
    if is_digit(text[tag_at]) {
        return count_alone(at, times);
    }
    Found {
        at,
        counted: true,
        times,
        tag_at,
        tag: Some(text[tag_at]),
    }
}

/// The first token from a place on.
pub fn next_token(text: &[u8], from: usize) -> Found
    requires { from ≤ length text.now }
    ensures begins { BeginsWithToken text.now from result }
    ensures tag_within { IfSome result.tag
        (λ _. (from ≤ result.tag_at) × (result.tag_at < length text.now)) }
    ensures once { result.counted ≡ false → result.times ≡ 1 }
    ensures few { result.times ≤ count_cap }
{
    let at = skip_spaces(text, from);
    if at == text.len() {
        return Found {
            at: 0,
            counted: false,
            times: 1,
            tag_at: 0,
            tag: None,
        };
    }
    if is_digit(text[at]) {
        return counted_token(text, at);
    }
    tag_alone(at, text[at])
}

/// True where the token's tag is that of live cells.
pub fn is_live(found: &Found) -> bool
    ensures { result ≡ is_live (token_found found.now) }
{
    match found.tag {
        Some(tag) => tag == b'o' || tag == b'A',
        None => false,
    }
}

/// True where the token's tag is that of cells, live or dead.
pub fn is_cells(found: &Found) -> bool
    ensures { result ≡ is_cells (token_found found.now) }
{
    match found.tag {
        Some(tag) => tag == b'b' || tag == b'.' || tag == b'o' || tag == b'A',
        None => false,
    }
}

/// True where the token's tag is that of row ends.
pub fn is_row_end(found: &Found) -> bool
    ensures { result ≡ is_row_end (token_found found.now) }
{
    match found.tag {
        Some(tag) => tag == b'$',
        None => false,
    }
}

/// True where a letter of a third state is in the place of the token's tag.
pub fn is_other_state(found: &Found) -> bool
    ensures { result ≡ is_other_state (token_found found.now) }
{
    match found.tag {
        Some(tag) => is_letter(tag) && !is_cells(found),
        None => false,
    }
}

/// True where a byte that is no tag is in the place of the token's tag.
pub fn is_no_tag(found: &Found) -> bool
    ensures { result ≡ is_no_tag (token_found found.now) }
{
    match found.tag {
        Some(tag) => !(tag == b'b'
            || tag == b'.'
            || tag == b'o'
            || tag == b'A'
            || tag == b'$'
            || tag == b'!'),
        None => false,
    }
}

/// True where the token's count is 0, or comes before `!`, another count or the end of the text.
pub fn is_bad_run(found: &Found) -> bool
    ensures { result ≡ is_bad_run (token_found found.now) }
{
    let cut = match found.tag {
        Some(tag) => tag == b'!',
        None => true,
    };
    found.counted && (found.times == 0 || cut)
}

/// True where the text ends where the token would begin.
pub fn is_missing(found: &Found) -> bool
    ensures { result ≡ is_missing (token_found found.now) }
{
    match found.tag {
        Some(_) => false,
        None => !found.counted,
    }
}
