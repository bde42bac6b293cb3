//! The content of a row of a table in one column.
ghost use Rattle.std.specs.Prelude.{◌≡◌, ◌++◌, ◌%◌, decimal, IfOk, OnOk, option_map, string_bytes};
ghost use Rattle.std.specs.Str.Lossy.{utf8_lossy};
ghost use Rattle.census_faults.specs.Rle.Reported.{fault_words};
ghost use Rattle.census_table.specs.Contents.{TextsAreSafe, begins_formula, content_bytes, content_of, hex_of, share_bytes, text_bytes};

use census_faults::fault_words;
use itoa::Buffer;
use std::alloc::{AllocError, Global};

/// The content of a row in one column.
#[derive(Clone, Copy)]
pub enum Cell<'a> {
    /// Nothing.
    Empty,
    /// A number.
    Count(u64),
    /// A number that may be negative.
    Shift(i64),
    /// A number of millionths, written with six digits after the point.
    Share(u64),
    /// A text. Bytes of it that are not UTF-8 are written as U+FFFD.
    Text(&'a [u8]),
    /// The bytes of a text in hex, if it is not UTF-8, and otherwise nothing.
    Hex(&'a [u8]),
    /// The meaning of the fault that a report gives by this number.
    Fault(u64),
}

/// The content of a row in a named column.
#[derive(Clone, Copy)]
pub struct Field<'a> {
    /// The column's name.
    pub name: &'static str,
    pub cell: Cell<'a>,
}

// The bytes in hex, where they are not UTF-8.
pub fn hex_of(alloc: Global, bytes: &[u8]) -> Result<Option<String>, AllocError>
    ensures { IfOk result (λ text. option_map string_bytes text ≡ hex_of bytes.now) }
{
    match str::from_utf8(bytes) {
        Ok(_) => Ok(None),
        Err(_) => Ok(Some(hex::encode(alloc, bytes)?)),
    }
}

// True where a spreadsheet may take a text for a formula, by its first byte.
fn begins_formula(text: &[u8]) -> bool
    ensures { result ≡ begins_formula text.now }
{
    match text {
        [byte, ..] => b"=+-@\t\r".contains(byte),
        [] => false,
    }
}

// A text, with an apostrophe before it if it is to be safe and a spreadsheet may take it for a formula.
fn text_of(alloc: Global, safe: bool, text: String) -> Result<String, AllocError>
    ensures { IfOk result (λ told. string_bytes told ≡ text_bytes safe (string_bytes text)) }
{
    if !safe || !begins_formula(text.as_bytes()) {
        return Ok(text);
    }
    let mut told = String::from_str(alloc, "'")?;
    told.push_str(text.as_str())?;
    Ok(told)
}

// The meaning of the fault that a report gives by this number.
pub fn fault_text(alloc: Global, number: u64) -> Result<String, AllocError>
    ensures { IfOk result (λ text. string_bytes text ≡ utf8_lossy (fault_words number)) }
{
    let words = fault_words(alloc, number)?;
    String::from_utf8_lossy(alloc, words.as_slice())
}

// Adds the last digit of a number.
fn push_digit(text: &mut String, number: u64) -> Result<(), AllocError>
    ensures { OnOk result (string_bytes text.new ≡ string_bytes text.old ++ decimal (number % 10)) }
{
    let mut buffer = Buffer::new();
    text.push_str(buffer.format(number % 10))
}

// A number of millionths, with six digits after the point.
pub fn share_text(alloc: Global, millionths: u64) -> Result<String, AllocError>
    ensures { IfOk result (λ text. string_bytes text ≡ share_bytes millionths) }
{
    let mut buffer = Buffer::new();
    let mut text = String::from_str(alloc, buffer.format(millionths / 1_000_000))?;
    text.push_str(".")?;
    push_digit(&mut text, millionths / 100_000)?;
    push_digit(&mut text, millionths / 10_000)?;
    push_digit(&mut text, millionths / 1_000)?;
    push_digit(&mut text, millionths / 100)?;
    push_digit(&mut text, millionths / 10)?;
    push_digit(&mut text, millionths)?;
    Ok(text)
}

/// No text of a safe field begins as a formula does.
pub fn safe_texts_are_no_formulas()
    ensures { TextsAreSafe }
{}

impl Cell<'_> {
    /// The text of a field. If texts are to be `safe`, a text that a spreadsheet may take for a formula has a `'` before it:
    /// one that begins with `=`, `+`, `-`, `@`, a tab or a carriage return.
    pub fn to_text(&self, alloc: Global, safe: bool) -> Result<String, AllocError>
        ensures { IfOk result
            (λ text. string_bytes text ≡ content_bytes safe (content_of self.now)) }
    {
        let mut buffer = Buffer::new();
        match self {
            Cell::Empty => Ok(String::new(alloc)),
            Cell::Count(number) => String::from_str(alloc, buffer.format(*number)),
            Cell::Shift(number) => String::from_str(alloc, buffer.format(*number)),
            Cell::Share(millionths) => share_text(alloc, *millionths),
            Cell::Text(bytes) => text_of(alloc, safe, String::from_utf8_lossy(alloc, bytes)?),
            Cell::Hex(bytes) => Ok(hex_of(alloc, bytes)?.unwrap_or(String::new(alloc))),
            Cell::Fault(number) => text_of(alloc, safe, fault_text(alloc, *number)?),
        }
    }
}
