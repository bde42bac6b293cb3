//! What is said before patterns are compared. The only error is out of memory.
ghost use Rattle.std.specs.Prelude.{◌≡◌, ◌++◌, ◌||◌, false, IfOk, OnOk, if◌then◌else◌, decimal, map};
ghost use Rattle.std.specs.List.{list_any};
ghost use Rattle.census_readback.specs.Shapes.{any_outcome, is_line, lines_that};
ghost use Rattle.census_compare.specs.Claims.{title_read};
ghost use Rattle.census_compare.specs.Columns.{is_listed};
ghost use Rattle.census_compare.specs.Notes.{between, compared_line, counted_line, counted_note, has_code, listed, listed_text, title_text};

use crate::columns::{Title, is_listed};
use crate::reading::Claims;
use census_faults::printable_text;
use census_rows::{Label, Row, Rows};
use itoa::Buffer;
use std::alloc::{AllocError, Global};

// What the lines begin with, and what stands between their parts.
const COMPARED: &[u8] = b"census: compared: ";

const PASSED_OVER: &[u8] = b"; passed over: ";

const PROGRAM: &[u8] = b"census: ";

const PATTERNS: &[u8] = b" patterns compared\n";

// Adds a title as it is shown, after a comma if it is `later` than another.
fn push_title(text: &mut Vec<u8>, later: bool, title: &Title) -> Result<(), AllocError>
    ensures { OnOk result (text.new.items ≡ text.old.items ++ title_text later (title_read title.now)) }
{
    if later {
        text.extend_from_slice(b", ")?;
    }
    let shown = printable_text(*text.allocator(), title.text.as_slice())?;
    text.extend_from_slice(shown.as_slice())
}

// Adds the title of a column that is compared, or of one that is passed over. Returns whether a title is before what follows.
fn push_listed(
    text: &mut Vec<u8>,
    compared: bool,
    later: bool,
    title: &Title,
) -> Result<bool, AllocError>
    ensures text { OnOk result (text.new.items
        ≡ text.old.items ++ listed_text compared later (title_read title.now)) }
    ensures later { IfOk result (λ next. next ≡ (later || is_listed compared title.now.column)) }
{
    if !is_listed(compared, &title.column) {
        return Ok(later);
    }
    push_title(text, later, title)?;
    Ok(true)
}

// Adds the titles of the columns that are compared, or of those that are passed over.
fn push_titles(text: &mut Vec<u8>, compared: bool, titles: &[Title]) -> Result<(), AllocError>
    ensures { OnOk result (text.new.items
        ≡ text.old.items ++ listed compared false (map title_read titles.now)) }
{
    let mut later = false;
    for title in titles {
        later = push_listed(text, compared, later, title)?;
    }
    Ok(())
}

// Whether a column is passed over.
fn any_passed_over(titles: &[Title]) -> bool
    ensures { result ≡ list_any (λ title. is_listed false title.column) (map title_read titles.now) }
{
    let mut any = false;
    for title in titles {
        any |= is_listed(false, &title.column);
    }
    any
}

// What stands between the columns that are compared and those that are passed over.
fn between(titles: &[Title]) -> &'static [u8]
    ensures { result.now ≡ between (map title_read titles.now) }
{
    if any_passed_over(titles) {
        return PASSED_OVER;
    }
    b""
}

/// The line that says which columns are compared, and which are passed over.
pub fn compared_line(alloc: Global, claims: &Claims) -> Result<Vec<u8>, AllocError>
    ensures { IfOk result (λ line. line.items ≡ compared_line (map title_read claims.now.titles.items)) }
{
    let titles = claims.titles.as_slice();
    let mut line = Vec::from_slice(alloc, COMPARED)?;
    push_titles(&mut line, true, titles)?;
    line.extend_from_slice(between(titles))?;
    push_titles(&mut line, false, titles)?;
    line.extend_from_slice(b"\n")?;
    Ok(line)
}

// 1 for the line of a pattern that has a code, otherwise 0.
fn count_of_code(row: &Row) -> u64
    ensures { result ≡ (if is_line has_code row.now then 1 else 0) }
{
    match row {
        Row::Line { outcome, .. } if outcome.value(Label::Code).is_some() => 1,
        _ => 0,
    }
}

// 1 for the line of a pattern, otherwise 0.
fn count_of_line(row: &Row) -> u64
    ensures { result ≡ (if is_line any_outcome row.now then 1 else 0) }
{
    match row {
        Row::Line { .. } => 1,
        _ => 0,
    }
}

// How many patterns of these rows have codes, and how many there are.
fn counts_of(rows: &Rows) -> (u64, u64)
    ensures compared { result.0 ≡ lines_that has_code rows.now }
    ensures all { result.1 ≡ lines_that any_outcome rows.now }
{
    let mut compared: u64 = 0;
    let mut all: u64 = 0;
    for index in 0..rows.len() {
        let row = rows.row(index);
        let code = count_of_code(&row);
        let line = count_of_line(&row);
        compared += code;
        all += line;
    }
    (compared, all)
}

// Adds a number.
fn push_number(text: &mut Vec<u8>, number: u64) -> Result<(), AllocError>
    ensures { OnOk result (text.new.items ≡ text.old.items ++ decimal number) }
{
    let mut buffer = Buffer::new();
    text.extend_from_slice(buffer.format(number).as_bytes())
}

/// How many patterns are compared, where that is not all.
pub fn counted_line(alloc: Global, compared: u64, all: u64) -> Result<Vec<u8>, AllocError>
    ensures { IfOk result (λ line. line.items ≡ counted_line compared all) }
{
    let mut line = Vec::new(alloc);
    if compared != all {
        line.extend_from_slice(PROGRAM)?;
        push_number(&mut line, compared)?;
        line.extend_from_slice(b" of ")?;
        push_number(&mut line, all)?;
        line.extend_from_slice(PATTERNS)?;
    }
    Ok(line)
}

/// The line that says how many patterns of reports have codes, which are compared, and how many there are; nothing where each
/// has one.
pub fn counted_note(alloc: Global, rows: &Rows) -> Result<Vec<u8>, AllocError>
    ensures { IfOk result (λ line. line.items ≡ counted_note rows.now) }
{
    let (compared, all) = counts_of(rows);
    counted_line(alloc, compared, all)
}
