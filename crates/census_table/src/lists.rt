//! The engines or parts that the rows after a `line` row report, as lists in JSON. One item is held at a time. The only error
//! is out of memory; then a prefix of the list has been written.
ghost use Rattle.std.specs.Prelude.{◌≡◌, ◌++◌, codes, false, IfOk, OnOk, Some};
ghost use Rattle.std.specs.List.{filter_map, take_while};
ghost use Rattle.watched.specs.Telling.{sheet};
ghost use Rattle.serde_json.specs.Written.{comma_if};
ghost use Rattle.census_readback.specs.Following.{is_emits};
ghost use Rattle.census_table.specs.Json.{content_json, displacement_json, engine_end, engine_head, engine_json, is_later, item_text, items_text, kind_text, pair_json, portion_json};
ghost use Rattle.census_table.specs.Lists.{all_engines, engines_of, portion_of};
ghost use Rattle.census_table.specs.Things.{engines_behind, parts_behind};
ghost use Rattle.census_table.specs.Written.{Puts};

use crate::json::{push_number, push_text};
use census_readback::{emits_first, rows_behind};
use census_rows::{Behind, Row, Section};
use std::alloc::{AllocError, Global};
use std::io::Write;
use watched::{Block, Output, put};

/// A number of objects with the same code.
#[derive(Clone, Copy)]
pub struct Portion<'a> {
    pub code: &'a [u8],
    pub count: u64,
}

// The code of a row and its number of objects.
fn portion_of<'a>(row: &Row<'a>) -> Option<Portion<'a>>
    ensures { result ≡ portion_of row.now }
{
    match row {
        Row::Part { code, count, .. } => Some(Portion {
            code: *code,
            count: *count,
        }),
        Row::Emits { code, count, .. } => Some(Portion {
            code: *code,
            count: *count,
        }),
        _ => None,
    }
}

// Adds a comma if another item comes before.
fn push_comma(text: &mut Vec<u8>, later: bool) -> Result<(), AllocError>
    ensures { OnOk result (text.new.items ≡ text.old.items ++ comma_if later) }
{
    if later {
        text.push(b',')?;
    }
    Ok(())
}

// The item for a number of objects with one code.
fn portion_text(alloc: Global, later: bool, portion: &Portion) -> Result<Vec<u8>, AllocError>
    ensures { IfOk result (λ text. text.items ≡ item_text portion_json later (Some portion.now)) }
{
    let mut text = Vec::new(alloc);
    push_comma(&mut text, later)?;
    text.extend_from_slice(b"{\"code\":")?;
    push_text(alloc, &mut text, portion.code)?;
    text.extend_from_slice(b",\"count\":")?;
    push_number(&mut text, portion.count)?;
    text.push(b'}')?;
    Ok(text)
}

// Writes the item of a row, if it gives a number of objects with a code. Returns true if the next item has one before it.
fn put_portion<W: Write>(
    alloc: Global,
    row: &Row,
    later: bool,
    block: &mut Block,
    writer: &mut Output<W>,
) -> Result<bool, AllocError>
    ensures told { Puts (item_text portion_json later (portion_of row.now)) result
        (sheet block.old writer.old) (sheet block.new writer.new) }
    ensures later { IfOk result (λ next. next ≡ is_later later (portion_of row.now)) }
{
    match portion_of(row) {
        Some(portion) => {
            let text = portion_text(alloc, later, &portion)?;
            put(text.as_slice(), block, writer);
            Ok(true)
        }
        None => Ok(later),
    }
}

// Writes an item for each row that gives a number of objects with a code.
fn put_portions<W: Write>(
    alloc: Global,
    rows: &Section,
    block: &mut Block,
    writer: &mut Output<W>,
) -> Result<(), AllocError>
    ensures { Puts (items_text portion_json false (filter_map portion_of rows.now)) result
        (sheet block.old writer.old) (sheet block.new writer.new) }
{
    let mut later = false;
    for index in 0..rows.len() {
        later = put_portion(alloc, &rows.row(index), later, block, writer)?;
    }
    Ok(())
}

// Writes such items between two texts.
fn put_between<W: Write>(
    alloc: Global,
    head: &[u8],
    rows: &Section,
    end: &[u8],
    block: &mut Block,
    writer: &mut Output<W>,
) -> Result<(), AllocError>
    ensures { Puts (head.now ++ (items_text portion_json false (filter_map portion_of rows.now) ++ end.now)) result
        (sheet block.old writer.old) (sheet block.new writer.new) }
{
    put(head, block, writer);
    put_portions(alloc, rows, block, writer)?;
    put(end, block, writer);
    Ok(())
}

// Adds two numbers, with a comma between them.
fn push_pair(text: &mut Vec<u8>, pair: (i64, i64)) -> Result<(), AllocError>
    ensures { OnOk result (text.new.items ≡ text.old.items ++ pair_json pair.0 pair.1) }
{
    push_number(text, pair.0)?;
    text.push(b',')?;
    push_number(text, pair.1)
}

// Adds the displacement of each engine in a period, and the name of the list of what it emits.
fn push_displacement(text: &mut Vec<u8>, displacement: (i64, i64)) -> Result<(), AllocError>
    ensures { OnOk result (text.new.items
        ≡ text.old.items ++ displacement_json displacement.0 displacement.1) }
{
    text.extend_from_slice(b",\"displacement\":[")?;
    push_pair(text, displacement)?;
    text.extend_from_slice(b"],\"emits\":[")
}

// Adds the beginning of the object of engines, up to what they emit.
fn push_head(text: &mut Vec<u8>, displacement: (i64, i64), count: u64) -> Result<(), AllocError>
    ensures { OnOk result (text.new.items
        ≡ text.old.items ++ engine_head displacement.0 displacement.1 count) }
{
    text.extend_from_slice(b"{\"count\":")?;
    push_number(text, count)?;
    push_displacement(text, displacement)
}

// The part of an item before what the engines emit.
fn head_text(
    alloc: Global,
    later: bool,
    displacement: (i64, i64),
    count: u64,
) -> Result<Vec<u8>, AllocError>
    ensures { IfOk result (λ text. text.items ≡ comma_if later ++ engine_head displacement.0 displacement.1 count) }
{
    let mut text = Vec::new(alloc);
    push_comma(&mut text, later)?;
    push_head(&mut text, displacement, count)?;
    Ok(text)
}

// The part of an item after what the engines emit.
fn end_text(alloc: Global, period: u64) -> Result<Vec<u8>, AllocError>
    ensures { IfOk result (λ text. text.items ≡ engine_end period) }
{
    let mut text = Vec::new(alloc);
    text.extend_from_slice(b"],\"period\":")?;
    push_number(&mut text, period)?;
    text.push(b'}')?;
    Ok(text)
}

// Writes the item of engines. The rows `emits` say what each of them emits.
fn put_kind<W: Write>(
    alloc: Global,
    period: u64,
    displacement: (i64, i64),
    count: u64,
    emits: &Section,
    later: bool,
    block: &mut Block,
    writer: &mut Output<W>,
) -> Result<(), AllocError>
    ensures { Puts (kind_text period displacement.0 displacement.1 count emits.now later) result
        (sheet block.old writer.old) (sheet block.new writer.new) }
{
    let head = head_text(alloc, later, displacement, count)?;
    let end = end_text(alloc, period)?;
    put_between(alloc, head.as_slice(), emits, end.as_slice(), block, writer)
}

// Writes the item of a row's engines, where the first of the rows after it say what each emits. Returns true if the next item
// has one before it.
fn put_engine<W: Write>(
    alloc: Global,
    row: &Row,
    behind: &Section,
    later: bool,
    block: &mut Block,
    writer: &mut Output<W>,
) -> Result<bool, AllocError>
    ensures told { Puts (item_text engine_json later (engines_of row.now (take_while is_emits behind.now))) result
        (sheet block.old writer.old) (sheet block.new writer.new) }
    ensures later { IfOk result
        (λ next. next ≡ is_later later (engines_of row.now (take_while is_emits behind.now))) }
{
    match row {
        Row::Engine {
            period,
            dx,
            dy,
            count,
            ..
        } => {
            let displacement = (*dx, *dy);
            let emits = emits_first(behind);
            put_kind(
                alloc,
                *period,
                displacement,
                *count,
                &emits,
                later,
                block,
                writer,
            )?;
            Ok(true)
        }
        _ => Ok(later),
    }
}

// Writes an item for each row that reports engines.
fn put_engines<W: Write>(
    alloc: Global,
    rows: &Section,
    block: &mut Block,
    writer: &mut Output<W>,
) -> Result<(), AllocError>
    ensures { Puts (items_text engine_json false (all_engines rows.now)) result
        (sheet block.old writer.old) (sheet block.new writer.new) }
{
    let mut later = false;
    for index in 0..rows.len() {
        let behind = rows.from(index + 1);
        later = put_engine(alloc, &rows.row(index), &behind, later, block, writer)?;
    }
    Ok(())
}

/// Writes, as a list, the engines that the first of these rows report, if `kind` says that such rows follow the line, and
/// otherwise `null`.
pub fn put_engine_list<W: Write>(
    alloc: Global,
    kind: Behind,
    rows: &Section,
    block: &mut Block,
    writer: &mut Output<W>,
) -> Result<(), AllocError>
    ensures { Puts (content_json (engines_behind kind rows.now)) result
        (sheet block.old writer.old) (sheet block.new writer.new) }
{
    match kind {
        Behind::Engines => {
            put(b"[", block, writer);
            put_engines(alloc, &rows_behind(Behind::Engines, rows), block, writer)?;
            put(b"]", block, writer);
        }
        _ => put(b"null", block, writer),
    }
    Ok(())
}

/// Writes, as a list, the parts that the first of these rows report, if `kind` says that such rows follow the line, and
/// otherwise `null`.
pub fn put_part_list<W: Write>(
    alloc: Global,
    kind: Behind,
    rows: &Section,
    block: &mut Block,
    writer: &mut Output<W>,
) -> Result<(), AllocError>
    ensures { Puts (content_json (parts_behind kind rows.now)) result
        (sheet block.old writer.old) (sheet block.new writer.new) }
{
    match kind {
        Behind::Parts => {
            let parts = rows_behind(Behind::Parts, rows);
            put_between(alloc, b"[", &parts, b"]", block, writer)
        }
        _ => {
            put(b"null", block, writer);
            Ok(())
        }
    }
}
