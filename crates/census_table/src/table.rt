//! Tables, written row by row.
ghost use Rattle.std.specs.Prelude.{◌≡◌, ◌++◌, [], Bool, List, length, IfOk, MatchResult, OnOk};
ghost use Rattle.std.specs.List.{cons_option};
ghost use Rattle.std.specs.Option.{option_copied};
ghost use Rattle.csv.specs.Records.{fields_of};
ghost use Rattle.csv.specs.Writing.{default_writer, row_text};
ghost use Rattle.watched.specs.Telling.{TellsAfter, TellsFront, sheet};
ghost use Rattle.census_rows.specs.declared.row.Row.{Row};
ghost use Rattle.census_readback.specs.Shapes.{AreReports, any_outcome, lines_that};
ghost use Rattle.census_table.specs.Contents.{row_of};
ghost use Rattle.census_table.specs.Emitting.{no_last};
ghost use Rattle.census_table.specs.EngineColumns.{emitted_row};
ghost use Rattle.census_table.specs.Json.{json_line};
ghost use Rattle.census_table.specs.ObjectColumns.{object_row};
ghost use Rattle.census_table.specs.Tables.{head_text, listing_of, listing_text, row_line, thing_row, things_text, titles_of};
ghost use Rattle.census_table.specs.Things.{things_from, things_of};
ghost use Rattle.census_table.specs.Written.{Puts, TellsBut, records_text};
ghost use Rattle.census_table.specs.declared.table.Format.TheVariants.{Csv, Json};
ghost use Rattle.census_table.specs.declared.thing.Item.TheVariants as item;
ghost use Rattle.census_table.specs.declared.thing.Thing.TheVariants as things;

use crate::cell::Field;
use crate::column::{Column, entry_row};
use crate::comma::{row_record, text_of, titles_record};
use crate::engine::{Emitted, Last};
use crate::engine_column::{EngineColumn, emitted_row};
use crate::json::push_object;
use crate::lines::Lines;
use crate::object::Object;
use crate::object_column::{ObjectColumn, object_row};
use crate::pattern::put_pattern;
use crate::subject::Table;
use crate::thing::Thing;
use census_facts::Names;
use csv::ByteRecord;
use std::alloc::{AllocError, Global};
use std::io::Write;
use watched::{Block, Output, put};

/// The format of a table.
#[derive(Clone, Copy, Debug, PartialEq, Eq)]
pub enum Format {
    /// As comma-separated values: a record of the columns' names, and one for each row. A record
    /// ends with LF.
    Csv {
        /// True where a `'` is put before each text that a spreadsheet may take for a formula.
        safe: bool,
    },
    /// As JSON: for each row one object on a line of its own, with a member for each column, in the order of their names.
    /// Each line ends with LF. For a pattern the member `engines` is a list, and so is a member `parts`.
    Json,
}

// The number of records that are held before they are written together.
const MOST: usize = 256;

// Writes the records that are held. No text is made for a writer that has failed.
fn flush<W: Write>(
    alloc: Global,
    held: &mut Vec<ByteRecord>,
    block: &mut Block,
    writer: &mut Output<W>,
) -> Result<(), AllocError>
    ensures tells { Puts (records_text held.old.items) result
        (sheet block.old writer.old) (sheet block.new writer.new) }
    ensures empty { OnOk result (held.new.items ≡ []) }
{
    if held.is_empty() {
        return Ok(());
    }
    if writer.failed() {
        held.clear();
        return Ok(());
    }
    let text = text_of(alloc, held.as_slice())?;
    put(text.as_slice(), block, writer);
    held.clear();
    Ok(())
}

// Holds one more record, and writes all once there are `MOST`.
fn put_record<W: Write>(
    alloc: Global,
    fields: ByteRecord,
    held: &mut Vec<ByteRecord>,
    block: &mut Block,
    writer: &mut Output<W>,
) -> Result<(), AllocError>
    ensures { MatchResult result
        (λ _. TellsBut (records_text held.old.items ++ row_text default_writer (fields_of fields)) (records_text held.new.items)
        (sheet block.old writer.old) (sheet block.new writer.new))
        (λ _. TellsFront (records_text held.old.items ++ row_text default_writer (fields_of fields))
        (sheet block.old writer.old) (sheet block.new writer.new)) }
{
    held.push(fields)?;
    if held.len() < MOST {
        return Ok(());
    }
    flush(alloc, held, block, writer)
}

// The row of a thing, in the columns of comma-separated values.
fn record_row<'a>(
    alloc: Global,
    names: Option<&'a Names>,
    thing: &Thing<'_, 'a>,
) -> Result<Vec<Field<'a>>, AllocError>
    ensures { IfOk result (λ row. (safe : Bool) → row_of row.items ≡ thing_row (option_copied names.entry) (Csv safe) thing.now) }
{
    match thing {
        Thing::Pattern(entry, _) => entry_row(alloc, names, &Column::ALL, entry),
        Thing::Part(object) => object_row(alloc, names, &ObjectColumn::OF_PARTS, object),
        Thing::Emitted(emitted) => emitted_row(alloc, names, &EngineColumn::ALL, emitted),
        Thing::Kind(object) => object_row(alloc, names, &ObjectColumn::OF_CODES, object),
    }
}

// The JSON line of an object, in these columns.
fn object_line(
    alloc: Global,
    names: Option<&Names>,
    columns: &[ObjectColumn],
    object: &Object,
) -> Result<Vec<u8>, AllocError>
    ensures { IfOk result (λ text. text.items ≡ json_line (object_row (option_copied names.entry) columns.now object.now)) }
{
    let row = object_row(alloc, names, columns, object)?;
    let mut text = Vec::new(alloc);
    push_object(alloc, &mut text, row.as_slice())?;
    Ok(text)
}

// The JSON line of emitted objects.
fn emitted_line(
    alloc: Global,
    names: Option<&Names>,
    emitted: &Emitted,
) -> Result<Vec<u8>, AllocError>
    ensures { IfOk result (λ text. text.items ≡ json_line (thing_row (option_copied names.entry) Json (things.Emitted emitted.now))) }
{
    let row = emitted_row(alloc, names, &EngineColumn::IN_JSON, emitted)?;
    let mut text = Vec::new(alloc);
    push_object(alloc, &mut text, row.as_slice())?;
    Ok(text)
}

// Writes the JSON line of an object, in these columns.
fn put_object<W: Write>(
    alloc: Global,
    names: Option<&Names>,
    columns: &[ObjectColumn],
    object: &Object,
    block: &mut Block,
    writer: &mut Output<W>,
) -> Result<(), AllocError>
    ensures { Puts (json_line (object_row (option_copied names.entry) columns.now object.now)) result
        (sheet block.old writer.old) (sheet block.new writer.new) }
{
    let text = object_line(alloc, names, columns, object)?;
    put(text.as_slice(), block, writer);
    Ok(())
}

// Writes the JSON line of emitted objects.
fn put_emitted<W: Write>(
    alloc: Global,
    names: Option<&Names>,
    emitted: &Emitted,
    block: &mut Block,
    writer: &mut Output<W>,
) -> Result<(), AllocError>
    ensures { Puts (json_line (thing_row (option_copied names.entry) Json (things.Emitted emitted.now))) result
        (sheet block.old writer.old) (sheet block.new writer.new) }
{
    let text = emitted_line(alloc, names, emitted)?;
    put(text.as_slice(), block, writer);
    Ok(())
}

// Writes the JSON line of a thing.
fn put_line<W: Write>(
    alloc: Global,
    names: Option<&Names>,
    thing: &Thing,
    block: &mut Block,
    writer: &mut Output<W>,
) -> Result<(), AllocError>
    ensures { Puts (json_line (thing_row (option_copied names.entry) Json thing.now)) result
        (sheet block.old writer.old) (sheet block.new writer.new) }
{
    match thing {
        Thing::Pattern(entry, rows) => put_pattern(alloc, names, entry, rows, block, writer),
        Thing::Part(object) => {
            put_object(
                alloc,
                names,
                &ObjectColumn::OF_PARTS_IN_JSON,
                object,
                block,
                writer,
            )
        }
        Thing::Emitted(emitted) => put_emitted(alloc, names, emitted, block, writer),
        Thing::Kind(object) => {
            put_object(
                alloc,
                names,
                &ObjectColumn::OF_CODES_IN_JSON,
                object,
                block,
                writer,
            )
        }
    }
}

// Writes the record of a thing, or holds it.
fn put_csv<W: Write>(
    alloc: Global,
    safe: bool,
    names: Option<&Names>,
    thing: &Thing,
    held: &mut Vec<ByteRecord>,
    block: &mut Block,
    writer: &mut Output<W>,
) -> Result<(), AllocError>
    ensures { MatchResult result
        (λ _. TellsBut (records_text held.old.items ++ row_line (Csv safe) (thing_row (option_copied names.entry) (Csv safe) thing.now)) (records_text held.new.items)
        (sheet block.old writer.old) (sheet block.new writer.new))
        (λ _. TellsFront (records_text held.old.items ++ row_line (Csv safe) (thing_row (option_copied names.entry) (Csv safe) thing.now))
        (sheet block.old writer.old) (sheet block.new writer.new)) }
{
    let row = record_row(alloc, names, thing)?;
    let fields = row_record(alloc, safe, row.as_slice())?;
    put_record(alloc, fields, held, block, writer)
}

// Writes the held records, and the JSON line of a thing.
fn put_json<W: Write>(
    alloc: Global,
    names: Option<&Names>,
    thing: &Thing,
    held: &mut Vec<ByteRecord>,
    block: &mut Block,
    writer: &mut Output<W>,
) -> Result<(), AllocError>
    ensures { MatchResult result
        (λ _. TellsBut (records_text held.old.items ++ row_line Json (thing_row (option_copied names.entry) Json thing.now)) (records_text held.new.items)
        (sheet block.old writer.old) (sheet block.new writer.new))
        (λ _. TellsFront (records_text held.old.items ++ row_line Json (thing_row (option_copied names.entry) Json thing.now))
        (sheet block.old writer.old) (sheet block.new writer.new)) }
{
    flush(alloc, held, block, writer)?;
    put_line(alloc, names, thing, block, writer)
}

// Writes the row of a thing. No text is made for a writer that has failed.
fn put_thing<W: Write>(
    alloc: Global,
    format: Format,
    names: Option<&Names>,
    thing: &Thing,
    held: &mut Vec<ByteRecord>,
    block: &mut Block,
    writer: &mut Output<W>,
) -> Result<(), AllocError>
    ensures { MatchResult result
        (λ _. TellsBut (records_text held.old.items ++ row_line format (thing_row (option_copied names.entry) format thing.now)) (records_text held.new.items)
        (sheet block.old writer.old) (sheet block.new writer.new))
        (λ _. TellsFront (records_text held.old.items ++ row_line format (thing_row (option_copied names.entry) format thing.now))
        (sheet block.old writer.old) (sheet block.new writer.new)) }
{
    if writer.failed() {
        held.clear();
        return Ok(());
    }
    match format {
        Format::Csv { safe } => put_csv(alloc, safe, names, thing, held, block, writer),
        Format::Json => put_json(alloc, names, thing, held, block, writer),
    }
}

// Writes the row of a thing, if there is one.
fn put_some<W: Write>(
    alloc: Global,
    format: Format,
    names: Option<&Names>,
    some: &Option<Thing>,
    held: &mut Vec<ByteRecord>,
    block: &mut Block,
    writer: &mut Output<W>,
) -> Result<(), AllocError>
    ensures { MatchResult result
        (λ _. TellsBut (records_text held.old.items ++ things_text (option_copied names.entry) format (cons_option some.now [])) (records_text held.new.items)
        (sheet block.old writer.old) (sheet block.new writer.new))
        (λ _. TellsFront (records_text held.old.items ++ things_text (option_copied names.entry) format (cons_option some.now []))
        (sheet block.old writer.old) (sheet block.new writer.new)) }
{
    match some {
        Some(thing) => put_thing(alloc, format, names, thing, held, block, writer),
        None => Ok(()),
    }
}

// Writes the rows that these rows of reports, or kinds, add to a table.
fn put_lines<W: Write>(
    alloc: Global,
    format: Format,
    names: Option<&Names>,
    lines: &Lines,
    held: &mut Vec<ByteRecord>,
    block: &mut Block,
    writer: &mut Output<W>,
) -> Result<(), AllocError>
    ensures { MatchResult result
        (λ _. TellsBut (records_text held.old.items ++ things_text (option_copied names.entry) format (things_from lines.now no_last 0)) (records_text held.new.items)
        (sheet block.old writer.old) (sheet block.new writer.new))
        (λ _. TellsFront (records_text held.old.items ++ things_text (option_copied names.entry) format (things_from lines.now no_last 0))
        (sheet block.old writer.old) (sheet block.new writer.new)) }
{
    let mut last = Last::NOTHING;
    for index in 0..lines.len() {
        let some = lines.thing(index, &mut last);
        put_some(alloc, format, names, &some, held, block, writer)?;
    }
    Ok(())
}

// The record of the columns' names, if the table has one.
fn heading(
    alloc: Global,
    format: Format,
    names: Option<&Names>,
    table: &Table,
) -> Result<Vec<ByteRecord>, AllocError>
    ensures { IfOk result (λ held. records_text held.items
        ≡ head_text format (titles_of (option_copied names.entry) (listing_of table.now).subject)) }
{
    let mut held = Vec::new(alloc);
    match format {
        Format::Csv { .. } => {
            let titles = table.names(alloc, names)?;
            held.push(titles_record(alloc, titles.as_slice())?)?;
        }
        Format::Json => {}
    }
    Ok(held)
}

/// Writes a table, which is UTF-8. Patterns are in the order of their numbers, collection by collection, from collection 1 of
/// the first report. From one report to the next the numbers of the collections go on.
///
/// If there are names, a column `common_name` after `code` has the name of the code, or nothing if it has none. Without names
/// there is no such column.
///
/// Only the text of some rows is in memory at a time. If memory runs out, a prefix of the table has been written. Nothing is
/// written to a writer that has failed, and no more text is made for it.
pub fn put_listing<W: Write>(
    alloc: Global,
    format: Format,
    names: Option<&Names>,
    table: &Table,
    block: &mut Block,
    writer: &mut Output<W>,
) -> Result<(), AllocError>
    ensures { MatchResult result
        (λ _. TellsAfter (listing_text format (option_copied names.entry) (listing_of table.now))
        (sheet block.old writer.old) (sheet block.new writer.new))
        (λ _. TellsFront (listing_text format (option_copied names.entry) (listing_of table.now))
        (sheet block.old writer.old) (sheet block.new writer.new)) }
{
    let mut held = heading(alloc, format, names, table)?;
    for index in 0..table.len() {
        put_lines(
            alloc,
            format,
            names,
            &table.lines(index),
            &mut held,
            block,
            writer,
        )?;
    }
    flush(alloc, &mut held, block, writer)
}

/// A table of patterns has as many rows as its reports have `line` rows.
pub fn each_line_has_a_row()
    ensures { (rows : List Row) → AreReports rows
        → length (things_of item.Pattern rows) ≡ lines_that any_outcome rows }
{}
