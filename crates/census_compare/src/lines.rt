//! Lines about claims. The only error is out of memory.
ghost use Rattle.std.specs.Prelude.{◌≡◌, ◌&&◌, false, IfOk, OnOk, map, string_bytes};
ghost use Rattle.std.specs.List.{list_all};
ghost use Rattle.census_compare.specs.Agreement.{told};
ghost use Rattle.census_compare.specs.Claims.{cell_read, claim_read};
ghost use Rattle.census_compare.specs.Columns.{is_empty};
ghost use Rattle.census_compare.specs.Tests.{cell_agrees, match_agrees};

use crate::claim::{Cell, Claim};
use crate::index::Match;
use census_faults::printable_text;
use census_table::{Column, Entry};
use std::alloc::{AllocError, Global};

// What a table of patterns has for a pattern in a column.
fn told(alloc: Global, column: Column, pattern: &Entry) -> Result<String, AllocError>
    ensures { IfOk result (λ text. string_bytes text ≡ told column pattern.now) }
{
    column.cell(None, pattern).to_text(alloc, false)
}

/// Adds bytes as they are shown.
pub fn push_shown(text: &mut Vec<u8>, bytes: &[u8]) -> Result<(), AllocError> {
    let shown = printable_text(*text.allocator(), bytes)?;
    text.extend_from_slice(shown.as_slice())
}

// Adds what was found, or `-` for nothing.
fn push_found(text: &mut Vec<u8>, found: &[u8]) -> Result<(), AllocError> {
    if found.is_empty() {
        text.extend_from_slice(b"-")
    } else {
        push_shown(text, found)
    }
}

// Ends a line.
fn push_end(text: &mut Vec<u8>) -> Result<(), AllocError>
    ensures { OnOk result (is_empty text.new.items ≡ false) }
{
    text.extend_from_slice(b"\n")
}

// Adds the line of a cell whose claim differs from the table.
fn push_wrong(text: &mut Vec<u8>, name: &[u8], cell: &Cell, found: &[u8]) -> Result<(), AllocError>
    ensures { OnOk result (is_empty text.new.items ≡ false) }
{
    text.extend_from_slice(b"wrong ")?;
    push_shown(text, name)?;
    text.extend_from_slice(b" ")?;
    text.extend_from_slice(cell.column.name().as_bytes())?;
    text.extend_from_slice(b" ")?;
    push_shown(text, cell.value.as_slice())?;
    text.extend_from_slice(b" ")?;
    push_found(text, found)?;
    push_end(text)
}

// Adds the line of a cell, if its claim differs from the table.
fn push_cell(
    text: &mut Vec<u8>,
    name: &[u8],
    pattern: &Entry,
    cell: &Cell,
) -> Result<(), AllocError>
    ensures { OnOk result (is_empty text.new.items
        ≡ (is_empty text.old.items && cell_agrees pattern.now (cell_read cell.now))) }
{
    let found = told(*text.allocator(), cell.column, pattern)?;
    if cell.value.as_slice() == found.as_bytes() {
        return Ok(());
    }
    push_wrong(text, name, cell, found.as_bytes())
}

// Adds the lines of cells.
fn push_cells(
    text: &mut Vec<u8>,
    name: &[u8],
    pattern: &Entry,
    cells: &[Cell],
) -> Result<(), AllocError>
    ensures { OnOk result (is_empty text.new.items
        ≡ (is_empty text.old.items && list_all (cell_agrees pattern.now) (map cell_read cells.now))) }
{
    for cell in cells {
        push_cell(text, name, pattern, cell)?;
    }
    Ok(())
}

// Adds a line with a word and a name.
fn push_named(text: &mut Vec<u8>, word: &[u8], name: &[u8]) -> Result<(), AllocError>
    ensures { OnOk result (is_empty text.new.items ≡ false) }
{
    text.extend_from_slice(word)?;
    push_shown(text, name)?;
    push_end(text)
}

/// The lines about a claim, by how many patterns it is about: none where it is about one, with which it agrees.
pub fn claim_lines(alloc: Global, claim: &Claim, found: &Match) -> Result<Vec<u8>, AllocError>
    ensures { IfOk result (λ text. is_empty text.items ≡ match_agrees (claim_read claim.now) found.now) }
{
    let mut text = Vec::new(alloc);
    let name = claim.name.as_slice();
    match found {
        Match::Nothing => push_named(&mut text, b"missing ", name)?,
        Match::One(pattern) => push_cells(&mut text, name, pattern, claim.cells.as_slice())?,
        Match::Several => push_named(&mut text, b"several ", name)?,
    }
    Ok(text)
}

/// The line of a pattern that no claim is about, by the names of its collection and its own.
pub fn unclaimed_line(alloc: Global, collection: &[u8], name: &[u8]) -> Result<Vec<u8>, AllocError>
    ensures { IfOk result (λ text. is_empty text.items ≡ false) }
{
    let mut text = Vec::new(alloc);
    text.extend_from_slice(b"unclaimed ")?;
    push_shown(&mut text, collection)?;
    text.extend_from_slice(b"/")?;
    push_shown(&mut text, name)?;
    push_end(&mut text)?;
    Ok(text)
}
