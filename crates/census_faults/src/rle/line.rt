//! The places of the bytes of a text.
ghost use Rattle.std.specs.Prelude.{◌≡◌, ◌≤◌, length};
ghost use Rattle.census_faults.specs.Rle.Places.{line_and_column, place_in, place_of_fault};

use crate::rle::bytes::{count_of, last_line_len};
use crate::rle::header::header_place;
use crate::rle::places::Place;
use life_text::RleFault;

/// The line and the column of a byte, or of the end of the text, both counted from 1. LF ends a line, and belongs to it. CR is
/// a byte like any other: where a line ends with CR and LF, CR is the second-to-last byte of its line, and CR alone does not
/// end a line.
pub fn line_and_column(text: &[u8], at: usize) -> Place
    requires { at ≤ length text.now }
    ensures { result ≡ line_and_column text.now at }
{
    let before = &text[..at];
    Place {
        line: count_of(before, b'\n') as u64 + 1,
        column: last_line_len(before) as u64 + 1,
    }
}

// The byte at which a reader should look for a fault.
fn place_in(text: &[u8], fault: RleFault) -> usize
    ensures { result ≡ place_in text.now fault }
{
    match fault {
        RleFault::NoHeader | RleFault::BadHeader | RleFault::Rule(_) => header_place(text),
        RleFault::ManyStates { at }
        | RleFault::BadChar { at }
        | RleFault::BadRun { at }
        | RleFault::TooFar { at }
        | RleFault::TooMany { at } => at,
        RleFault::NoEnd => text.len(),
        RleFault::Memory => 0,
    }
}

/// The place at which a reader should look for a fault of a text: the byte that the fault names; the header line's first byte
/// for a fault of the header; the text's end where the end is missing; and the text's first byte where memory ran out. A byte
/// after the text's end counts as the end.
pub fn place_of(text: &[u8], fault: &RleFault) -> Place
    ensures { result ≡ place_of_fault text.now fault.now }
{
    line_and_column(text, place_in(text, *fault).min(text.len()))
}
