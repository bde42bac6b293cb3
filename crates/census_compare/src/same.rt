//! The patterns that are one object.
ghost use Rattle.std.specs.Prelude.{◌≡◌, ◌++◌, ℕ, None, List, IfOk, OnOk};
ghost use Rattle.watched.specs.Telling.{sheet, TellsAfter};
ghost use Rattle.census_readback.specs.Shapes.{AreReports};
ghost use Rattle.census_table.specs.Contents.{row_of};
ghost use Rattle.census_compare.specs.Same.{begins_code, has_any, heading_line, members_of, name_line, told_text, tolds_text, FindsSame};
ghost use Rattle.census_compare.specs.SamePatterns.{tolds_of};

use crate::listing::{AtPlaces, Tolds};
use crate::told::Told;
use crate::tolds::same_in_reports;
use census_readback::collections;
use census_rows::Rows;
use census_table::{Cell, Field, push_object};
use std::alloc::{AllocError, Global};
use std::io::Write;
use watched::{Block, Output, put};

// Whether a pattern begins a code: the one before it, if there is one, has another code or rule.
fn begins_code(before: &Option<Told>, told: &Told) -> bool
    ensures { result ≡ begins_code before.now told.now }
{
    match before {
        Some(other) => !(told.code == other.code && told.rule == other.rule),
        None => true,
    }
}

// Adds the line of a code under its rule.
fn push_heading(text: &mut Vec<u8>, told: &Told) -> Result<(), AllocError>
    ensures { OnOk result (text.new.items ≡ text.old.items ++ heading_line told.now) }
{
    text.extend_from_slice(told.rule)?;
    text.extend_from_slice(b" ")?;
    text.extend_from_slice(told.code)?;
    text.extend_from_slice(b"\n")
}

// Adds the line of a pattern: its name in its collection.
fn push_line(text: &mut Vec<u8>, told: &Told) -> Result<(), AllocError>
    ensures { OnOk result (text.new.items ≡ text.old.items ++ name_line told.now) }
{
    text.extend_from_slice(b"  ")?;
    text.extend_from_slice(told.collection)?;
    text.extend_from_slice(b"/")?;
    text.extend_from_slice(told.name)?;
    text.extend_from_slice(b"\n")
}

// The members of the object of a pattern, in the order of their names.
fn members_of<'a>(told: &Told<'a>) -> [Field<'a>; 6]
    ensures { row_of result ≡ members_of told.now }
{
    [
        Field {
            name: "code",
            cell: Cell::Text(told.code),
        },
        Field {
            name: "collection_name",
            cell: Cell::Text(told.collection),
        },
        Field {
            name: "collection_name_hex",
            cell: Cell::Hex(told.collection),
        },
        Field {
            name: "name",
            cell: Cell::Text(told.name),
        },
        Field {
            name: "name_hex",
            cell: Cell::Hex(told.name),
        },
        Field {
            name: "rule",
            cell: Cell::Text(told.rule),
        },
    ]
}

// What is written of a pattern behind another: its object, or its line, below that of its code where it begins one.
fn text_of(
    alloc: Global,
    json: bool,
    before: &Option<Told>,
    told: &Told,
) -> Result<Vec<u8>, AllocError>
    ensures { IfOk result (λ text. text.items ≡ told_text json before.now told.now) }
{
    let mut text = Vec::new(alloc);
    if json {
        push_object(alloc, &mut text, &members_of(told))?;
        return Ok(text);
    }
    if begins_code(before, told) {
        push_heading(&mut text, told)?;
    }
    push_line(&mut text, told)?;
    Ok(text)
}

/// Writes these patterns. Returns whether there are any. The only error is out of memory; then a prefix has been written.
pub fn put_tolds<S: AtPlaces + Drop, W: Write>(
    alloc: Global,
    json: bool,
    tolds: &Tolds<S>,
    block: &mut Block,
    writer: &mut Output<W>,
) -> Result<bool, AllocError>
    ensures tells { IfOk result (λ _. TellsAfter (tolds_text json None tolds.now) (sheet block.old writer.old)
        (sheet block.new writer.new)) }
    ensures any { IfOk result (λ any. any ≡ has_any tolds.now) }
{
    let mut before = None;
    for index in 0..tolds.len() {
        let told = tolds.told(index);
        let text = text_of(alloc, json, &before, &told)?;
        put(text.as_slice(), block, writer);
        before = Some(told);
    }
    Ok(before.is_some())
}

/// Writes the patterns that are one object. For each code that several patterns of the reports have under one rule, it writes
/// a line with the rule, a blank and the code. Then for each of these patterns it writes a line with two blanks, the name of
/// its collection, a `/` and its name. The order is by the bytes of the codes, and for one code by those of the rules; then
/// collection by collection, each in the order of its rows, even if these interleave. Names, rules and codes are written as
/// they are. What a pattern has fallen apart into does not count.
///
/// As `json` it writes for each of these patterns a JSON object on a line, with `rule`, `code`, `collection_name` and `name`,
/// and with `collection_name_hex` and `name_hex` as tables have them.
///
/// Returns whether there is any such code. The rows are held to the end. For each pattern that is an object its place among
/// them is held, in 12 bytes, and once more for each that is written; its row is unpacked again when it is compared or written.
/// The only error is out of memory; then a prefix has been written. To a writer that has failed nothing is written.
pub fn put_same<W: Write>(
    alloc: Global,
    json: bool,
    rows: Rows,
    block: &mut Block,
    writer: &mut Output<W>,
) -> Result<bool, AllocError>
    requires { AreReports rows }
    ensures { IfOk result (λ found. (text : List ℕ) × FindsSame json (tolds_of rows.entry) found text
        × TellsAfter text (sheet block.old writer.old) (sheet block.new writer.new)) }
{
    let sections = collections(alloc, &rows)?;
    let tolds = same_in_reports(alloc, sections)?;
    put_tolds(alloc, json, &tolds, block, writer)
}
