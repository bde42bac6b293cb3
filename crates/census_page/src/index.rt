//! The table of all collections, and the heading of each.
ghost use Rattle.watched.specs.Telling.{sheet};
ghost use Rattle.census_page.specs.Pages.{PutsBits};

use crate::holders::row_or_end;
use crate::html::Html;
use crate::kind::Kind;
use crate::own::{
    CELL, CELL_END, COUNT_KINDS, COUNT_OBJECTS, COUNT_REFUSED, COUNT_RESOLVED, COUNT_UNRESOLVED,
    COUNTS, COUNTS_END, HEADING, INDEX_LINK_END, INDEX_ROW, INDEX_ROW_END, KIND, LINK_TEXT,
    OBJECTS, PATH, PATH_COUNTS, SECTION,
};
use crate::putting::put_html;
use crate::tally::{Which, count_among, objects_among};
use census_readback::Sections;
use census_rows::{Row, Section};
use std::alloc::{AllocError, Global};
use std::io::Write;
use watched::{Block, Output};

/// The name of the collection, from the first of its rows.
pub fn name_in<'a>(rows: &Section<'_, 'a>) -> &'a [u8] {
    match row_or_end(rows, 0) {
        Row::Open { name, .. } => name,
        _ => b"",
    }
}

// The numbers of all, of resolved, of unresolved and of refused patterns of a collection, from the last of its rows.
fn counts_in(rows: &Section) -> [u64; 4] {
    match row_or_end(rows, rows.len().saturating_sub(1)) {
        Row::Close {
            patterns,
            resolved,
            unresolved,
            refused,
            ..
        } => [patterns, resolved, unresolved, refused],
        _ => [0; 4],
    }
}

// Adds a cell with a number.
fn push_cell(html: &mut Html, number: u64) -> Result<(), AllocError> {
    html.own(CELL)?;
    html.grouped(number)?;
    html.own(CELL_END)
}

// The row of a collection.
fn index_row(alloc: Global, number: u64, rows: &Section) -> Result<Html, AllocError> {
    let [patterns, resolved, unresolved, refused] = counts_in(rows);
    let mut html = Html::new(alloc);
    html.own(INDEX_ROW)?;
    html.number(number)?;
    html.own(LINK_TEXT)?;
    html.name(alloc, name_in(rows))?;
    html.own(INDEX_LINK_END)?;
    push_cell(&mut html, patterns)?;
    push_cell(&mut html, resolved)?;
    push_cell(&mut html, unresolved)?;
    push_cell(&mut html, refused)?;
    push_cell(
        &mut html,
        count_among(Which::Of(Kind::StillLife), rows) as u64,
    )?;
    push_cell(
        &mut html,
        count_among(Which::Of(Kind::Oscillator), rows) as u64,
    )?;
    push_cell(
        &mut html,
        count_among(Which::Of(Kind::Spaceship), rows) as u64,
    )?;
    html.own(INDEX_ROW_END)?;
    Ok(html)
}

/// Writes a row for each collection, with a link to it, its counts, and the numbers of its codes of still lifes, oscillators
/// and spaceships. If memory runs out, a prefix has been written.
pub fn put_index<W: Write>(
    alloc: Global,
    sections: &Sections,
    block: &mut Block,
    writer: &mut Output<W>,
) -> Result<(), AllocError>
    ensures { PutsBits result (sheet block.old writer.old) (sheet block.new writer.new) }
{
    for index in 0..sections.len() {
        let html = index_row(alloc, index as u64 + 1, &sections.section(index))?;
        put_html(&html, block, writer);
    }
    Ok(())
}

// The part of a path after its last slash, where slashes at its end do not count, or all of a path that has only slashes.
fn last_part(path: &[u8]) -> &[u8] {
    let mut first = 0;
    let mut end = 0;
    let mut within = false;
    for (index, byte) in path.iter().enumerate() {
        if *byte == b'/' {
            within = false;
        } else {
            if !within {
                first = index;
            }
            within = true;
            end = index + 1;
        }
    }
    match path.get(first..end) {
        Some(part) if !part.is_empty() => part,
        _ => path,
    }
}

// Adds the last part of a path as a heading, and the whole path beneath it, if it has more.
fn push_path(alloc: Global, html: &mut Html, path: &[u8]) -> Result<(), AllocError> {
    let last = last_part(path);
    html.own(HEADING)?;
    html.name(alloc, last)?;
    if last.len() == path.len() {
        return html.own(COUNTS);
    }
    html.own(PATH)?;
    html.name(alloc, path)?;
    html.own(PATH_COUNTS)
}

// Adds the numbers of kinds of objects and of objects among rows, if there are any.
fn push_kinds(html: &mut Html, rows: &Section) -> Result<(), AllocError> {
    let kinds = count_among(Which::Codes, rows) as u64;
    if kinds == 0 {
        return Ok(());
    }
    let objects = objects_among(rows);
    html.own(COUNT_KINDS)?;
    html.grouped(kinds)?;
    html.own(KIND)?;
    html.plural(kinds)?;
    html.own(COUNT_OBJECTS)?;
    html.grouped(objects)?;
    html.own(OBJECTS)?;
    html.plural(objects)
}

/// The beginning of the section of the collection with this number: its name and its counts. The only error is out of memory.
pub fn heading(alloc: Global, number: u64, rows: &Section) -> Result<Html, AllocError> {
    let [patterns, resolved, unresolved, refused] = counts_in(rows);
    let mut html = Html::new(alloc);
    html.own(SECTION)?;
    html.number(number)?;
    push_path(alloc, &mut html, name_in(rows))?;
    html.grouped(patterns)?;
    html.own(COUNT_RESOLVED)?;
    html.grouped(resolved)?;
    html.own(COUNT_UNRESOLVED)?;
    html.grouped(unresolved)?;
    html.own(COUNT_REFUSED)?;
    html.grouped(refused)?;
    push_kinds(&mut html, rows)?;
    html.own(COUNTS_END)?;
    Ok(html)
}
