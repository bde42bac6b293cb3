//! A code in words.
ghost use Rattle.std.specs.Prelude.{◌≤◌, length};

use crate::html::Html;
use crate::own::{
    CELLS, MOVING_SPACESHIP, NOTHING, OBJECT_ALONE, OSCILLATOR, OSCILLATOR_ROW, OTHER_ROW, PERIOD,
    SPACESHIP, SPACESHIP_ROW, STILL_LIFE, STILL_LIFE_ROW,
};
use crate::speed::{Way, push_speed};
use std::alloc::AllocError;

/// The kind of an object, by the first two letters of its code.
#[derive(Clone, Copy, PartialEq, Eq)]
pub enum Kind {
    /// `xs`: it stays as it is.
    StillLife,
    /// `xp`: it recurs in its place.
    Oscillator,
    /// `xq`: it recurs elsewhere.
    Spaceship,
    /// Anything else.
    Other,
}

/// The kind of the object with a code.
pub fn kind_of(code: &[u8]) -> Kind {
    if code.starts_with(b"xs") {
        Kind::StillLife
    } else if code.starts_with(b"xp") {
        Kind::Oscillator
    } else if code.starts_with(b"xq") {
        Kind::Spaceship
    } else {
        Kind::Other
    }
}

/// The number of the template's text after the beginning of the row of such an object: the class of the row.
pub fn row_of(kind: Kind) -> usize {
    match kind {
        Kind::StillLife => STILL_LIFE_ROW,
        Kind::Oscillator => OSCILLATOR_ROW,
        Kind::Spaceship => SPACESHIP_ROW,
        Kind::Other => OTHER_ROW,
    }
}

// The number of digits at the start of a text.
fn count_digits(text: &[u8]) -> usize
    ensures { result ≤ length text.now }
{
    for (index, byte) in text.iter().enumerate() {
        if *byte < b'0' || *byte > b'9' {
            return index;
        }
    }
    text.len()
}

// The digits after the first two letters of a code.
fn code_number(code: &[u8]) -> &[u8] {
    match code {
        [_, _, rest @ ..] => &rest[..count_digits(rest)],
        _ => b"",
    }
}

/// The period that a code states, in decimal: the number of an oscillator or a spaceship, and 1 for a still life. It is empty
/// for other codes.
pub fn period_told(code: &[u8]) -> &[u8] {
    match kind_of(code) {
        Kind::StillLife => b"1",
        Kind::Oscillator | Kind::Spaceship => code_number(code),
        Kind::Other => b"",
    }
}

// Adds a text of the template and a number.
fn push_numbered(html: &mut Html, words: usize, number: &[u8]) -> Result<(), AllocError> {
    html.own(words)?;
    html.digits(number)
}

// Adds the words for a still life with this number of cells.
fn push_still(html: &mut Html, number: &[u8]) -> Result<(), AllocError> {
    if number == b"0".as_slice() {
        return html.own(NOTHING);
    }
    push_numbered(html, STILL_LIFE, number)?;
    html.own(CELLS)
}

// Adds the words for a spaceship of this speed, if that is known.
fn push_ship(html: &mut Html, way: &Option<Way>, number: &[u8]) -> Result<(), AllocError> {
    let Some(way) = way else {
        return push_numbered(html, SPACESHIP, number);
    };
    html.own(MOVING_SPACESHIP)?;
    push_speed(html, way)?;
    push_numbered(html, PERIOD, number)
}

/// Appends the description of the object with a code, in words, with its speed if that is known. The only error is out of
/// memory.
pub fn push_object_words(
    html: &mut Html,
    code: &[u8],
    way: &Option<Way>,
) -> Result<(), AllocError> {
    let number = code_number(code);
    match kind_of(code) {
        Kind::StillLife => push_still(html, number),
        Kind::Oscillator => push_numbered(html, OSCILLATOR, number),
        Kind::Spaceship => push_ship(html, way, number),
        Kind::Other => html.own(OBJECT_ALONE),
    }
}
