//! Codes of objects: `x`, a letter, a number, `_` and a body.
ghost use Rattle.std.specs.Prelude.{◌≡◌, ◌==◌, ◌<◌, IfSome, length, position};
ghost use Rattle.std.specs.List.{list_all};
ghost use Rattle.std.specs.Option.{option_map};
ghost use Rattle.census_readback.specs.Codes.{are_lawful, code_parts, has_cells, is_code, is_code_after, is_filled, is_moving, is_object, parts_of, tells};
ghost use Rattle.life_cells.specs.CodeReading.{is_base_36_digit};
ghost use Rattle.texts.specs.Bytes.{is_digit};

use itoa::Buffer;

// The parts of a code: the letter after `x`, the number up to the first `_`, and the body after it.
#[derive(Clone, Copy)]
pub struct CodeParts<'a> {
    pub letter: u8,
    pub number: &'a [u8],
    pub body: &'a [u8],
}

// Where the first `_` is.
fn first_mark(text: &[u8]) -> Option<usize>
    ensures value { result ≡ position (λ byte. byte == 95) text.now }
    ensures within { IfSome result (λ at. at < length text.now) }
{
    text.iter().position(|byte| *byte == b'_')
}

fn code_parts(code: &[u8]) -> Option<CodeParts>
    ensures { option_map parts_of result ≡ code_parts code.now }
{
    match code {
        [first, letter, text @ ..] => {
            if *first != b'x' {
                return None;
            }
            let at = first_mark(text)?;
            Some(CodeParts {
                letter: *letter,
                number: &text[..at],
                body: &text[at + 1..],
            })
        }
        _ => None,
    }
}

fn is_digit(byte: u8) -> bool
    ensures { result ≡ is_digit byte }
{
    b'0' <= byte && byte <= b'9'
}

fn are_digits(bytes: &[u8]) -> bool
    ensures { result ≡ list_all is_digit bytes.now }
{
    bytes.iter().all(|byte| is_digit(*byte))
}

fn is_base_36_digit(byte: u8) -> bool
    ensures { result ≡ is_base_36_digit byte }
{
    (b'0' <= byte && byte <= b'9') || (b'a' <= byte && byte <= b'z')
}

fn are_base_36_digits(bytes: &[u8]) -> bool
    ensures { result ≡ list_all is_base_36_digit bytes.now }
{
    bytes.iter().all(|byte| is_base_36_digit(*byte))
}

fn is_filled(bytes: &[u8]) -> bool
    ensures { result ≡ is_filled bytes.now }
{
    0 < bytes.len()
}

impl<'a> CodeParts<'a> {
    fn are_lawful(&self) -> bool
        ensures { result ≡ are_lawful (parts_of self.now) }
    {
        (self.letter == b's' || self.letter == b'p' || self.letter == b'q')
            && (is_filled(self.number) && are_digits(self.number))
            && (is_filled(self.body) && are_base_36_digits(self.body))
    }

    // Whether it says that something recurs after `period` generations, moved or not.
    fn tells(&self, moved: bool, period: u64) -> bool
        ensures { result ≡ tells moved period (parts_of self.now) }
    {
        if !moved && period == 1 {
            return self.letter == b's';
        }
        let mut buffer = Buffer::new();
        self.letter == (if moved { b'q' } else { b'p' })
            && self.number == buffer.format(period).as_bytes()
    }
}

/// Whether a text is a code: `xs`, `xp` or `xq`, a number, `_`, and a body of `0` to `9` and `a` to `z`.
pub fn is_code(code: &[u8]) -> bool
    ensures { result ≡ is_code code.now }
{
    match code_parts(code) {
        Some(parts) => parts.are_lawful(),
        None => false,
    }
}

// Whether a text with the form of a code has another body than `0`, which that of no cell has.
fn has_cells(code: &[u8]) -> bool
    ensures { result ≡ has_cells code.now }
{
    match code_parts(code) {
        Some(parts) => !(parts.body == b"0".as_slice()),
        None => false,
    }
}

/// Whether a text is a code of at least one cell.
pub fn is_object(code: &[u8]) -> bool
    ensures { result ≡ is_object code.now }
{
    is_code(code) && has_cells(code)
}

/// Whether a text with the form of a code begins as that of what moves.
pub fn is_moving(code: &[u8]) -> bool
    ensures { result ≡ is_moving code.now }
{
    match code_parts(code) {
        Some(parts) => parts.letter == b'q',
        None => false,
    }
}

/// Whether a text is a code of what recurs after `period` generations, at least 1, moved or not.
pub fn is_code_after(moved: bool, period: u64, code: &[u8]) -> bool
    ensures { result ≡ is_code_after moved period code.now }
{
    0 < period
        && match code_parts(code) {
            Some(parts) => parts.are_lawful() && parts.tells(moved, period),
            None => false,
        }
}
