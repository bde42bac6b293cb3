//! The rows at the start of a text.
ghost use Rattle.std.specs.Prelude.{◌≡◌, ◌==◌, ◌++◌, ◌<◌, ℕ, List, length, position, IfOk, IfSome, MatchOption};
ghost use Rattle.census_rows.specs.declared.row.Row.{Row};
ghost use Rattle.census_rows.specs.Lines.{SameRow, line_of, text_of};
ghost use Rattle.census_readback.specs.Texts.{AllLines, Ends, IsLine, IsStuck, SameRows};

use census_rows::{Row, Rows, read_row};
use std::alloc::AllocError;

/// A row, and what comes after its line.
#[derive(Clone, Copy)]
pub struct First<'a> {
    pub row: Row<'a>,
    pub rest: &'a [u8],
}

// Where the first LF is.
fn first_feed(text: &[u8]) -> Option<usize>
    ensures { result ≡ position (λ byte. byte == 10) text.now }
{
    text.iter().position(|byte| *byte == b'\n')
}

/// The row of the first line. `None` if no row is written so.
pub fn first_row(text: &[u8]) -> Option<First>
    ensures sound { IfSome result
        (λ first. IsLine first.row × (text.now ≡ line_of first.row ++ first.rest.now)) }
    ensures all { (row : Row) (after : List ℕ) → IsLine row → text.now ≡ line_of row ++ after
        → MatchOption result ⊥ (λ first. SameRow first.row row × (first.rest.now ≡ after)) }
{
    let (line, behind) = text.split_at(first_feed(text)?);
    let row = read_row(line)?;
    Some(First {
        row,
        rest: &behind[1..],
    })
}

/// What comes after the first line. `None` if there is no LF.
pub fn behind_line(text: &[u8]) -> Option<&[u8]>
    ensures shorter { IfSome result (λ rest. length rest.now < length text.now) }
    ensures all { (row : Row) (after : List ℕ) → IsLine row → text.now ≡ line_of row ++ after
        → MatchOption result ⊥ (λ rest. rest.now ≡ after) }
{
    let (_, behind) = text.split_at(first_feed(text)?);
    Some(&behind[1..])
}

// Appends all rows at the start of a text, and returns what comes after them. If memory is refused, some rows may have been
// appended.
pub fn read_rows<'a>(text: &'a [u8], rows: &mut Rows<'a>) -> Result<&'a [u8], AllocError>
    ensures { IfOk result (λ rest. (ends : Ends text.now rest.now)
        × (rows.new ≡ rows.old ++ ends.rows)) }
{
    let mut rest = text;
    while let Some(first) = first_row(rest) {
        rows.push(&first.row)?;
        rest = first.rest;
    }
    Ok(rest)
}

// What comes after all rows at the start of a text.
pub fn behind_rows(text: &[u8]) -> &[u8]
    ensures { Ends text.now result.now }
{
    let mut rest = text;
    while let Some(first) = first_row(rest) {
        rest = first.rest;
    }
    rest
}
