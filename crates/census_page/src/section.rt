//! The section of a collection.
ghost use Rattle.std.specs.Prelude.{map};
ghost use Rattle.std.specs.List.{flat_map};
ghost use Rattle.std.specs.Option.{option_copied};
ghost use Rattle.watched.specs.Telling.{sheet};
ghost use Rattle.census_page.specs.Pages.{AreCodes, AreOf, Puts, PutsBits, PutsRows, row_at, stray_in};

use crate::chosen::chosen;
use crate::code_row::put_codes;
use crate::fate::put_strays;
use crate::holders::{Holders, places, put_in_order};
use crate::html::Html;
use crate::index::{heading, name_in};
use crate::lives::lives;
use crate::options::PageOptions;
use crate::own::{CODES, LEFT_OUT, LEFT_OUT_END, MORE_KINDS, SECTION_END, STRAYS, TABLE_END};
use crate::putting::{put_html, put_own};
use crate::tally::{Which, count_among};
use crate::view::View;
use census_facts::Names;
use census_rows::Section;
use std::alloc::{AllocError, Global};
use std::io::Write;
use watched::{Block, Output};

// The number of codes that a table leaves out, as a text, or nothing if it leaves out none.
fn left_out(alloc: Global, count: usize) -> Result<Html, AllocError> {
    let mut html = Html::new(alloc);
    if count != 0 {
        html.own(LEFT_OUT)?;
        html.grouped(count as u64)?;
        html.own(MORE_KINDS)?;
        html.plural(count as u64)?;
        html.own(LEFT_OUT_END)?;
    }
    Ok(html)
}

// Writes the table of a collection's codes in the rows with these numbers, if there are any.
fn put_chosen<W: Write>(
    alloc: Global,
    view: &View,
    holders: &Holders,
    numbers: &[usize],
    block: &mut Block,
    writer: &mut Output<W>,
) -> Result<(), AllocError>
    ensures { Puts (option_copied view.now.names) result (map (row_at holders.now.rows.now) numbers.now)
        (sheet block.old writer.old) (sheet block.new writer.new) }
{
    if numbers.is_empty() {
        return put_codes(alloc, view, holders, numbers, block, writer);
    }
    put_own(CODES, block, writer);
    put_codes(alloc, view, holders, numbers, block, writer)?;
    put_own(TABLE_END, block, writer);
    Ok(())
}

// Writes the table of a collection's codes, if the options allow any, and the number of those left out.
fn put_code_table<W: Write>(
    alloc: Global,
    view: &View,
    options: &PageOptions,
    rows: &Section,
    block: &mut Block,
    writer: &mut Output<W>,
) -> Result<(), AllocError>
    ensures { PutsRows (option_copied view.now.names) result (AreCodes options.now rows.now)
        (sheet block.old writer.old) (sheet block.new writer.new) }
{
    let mut places = places(alloc, rows)?;
    put_in_order(rows, &mut places)?;
    let holders = Holders {
        rows,
        places: places.as_slice(),
    };
    let numbers = chosen(alloc, options, &holders)?;
    let told = numbers.as_slice();
    let all = count_among(Which::Codes, rows);
    let left = left_out(alloc, all.saturating_sub(told.len()))?;
    put_chosen(alloc, view, &holders, told, block, writer)?;
    put_html(&left, block, writer);
    Ok(())
}

// Writes the table of a collection's patterns that have rows of their own.
fn put_stray_list<W: Write>(
    alloc: Global,
    view: &View,
    rows: &Section,
    block: &mut Block,
    writer: &mut Output<W>,
) -> Result<(), AllocError>
    ensures { Puts (option_copied view.now.names) result (flat_map (stray_in view.now.patterns) rows.now)
        (sheet block.old writer.old) (sheet block.new writer.new) }
{
    put_own(STRAYS, block, writer);
    put_strays(alloc, view, rows, block, writer)?;
    put_own(TABLE_END, block, writer);
    Ok(())
}

// Writes this table if it has a row.
fn put_stray_table<W: Write>(
    alloc: Global,
    view: &View,
    rows: &Section,
    block: &mut Block,
    writer: &mut Output<W>,
) -> Result<(), AllocError>
    ensures { Puts (option_copied view.now.names) result (flat_map (stray_in view.now.patterns) rows.now)
        (sheet block.old writer.old) (sheet block.new writer.new) }
{
    let none = count_among(Which::Strays(view.patterns), rows) == 0;
    if none {
        return put_strays(alloc, view, rows, block, writer);
    }
    put_stray_list(alloc, view, rows, block, writer)
}

// Writes the beginning of a collection: its name, its counts, and the lifespans of its patterns, if they are many.
fn put_heading<W: Write>(
    alloc: Global,
    view: &View,
    number: u64,
    rows: &Section,
    block: &mut Block,
    writer: &mut Output<W>,
) -> Result<(), AllocError>
    ensures { PutsBits result (sheet block.old writer.old) (sheet block.new writer.new) }
{
    let front = heading(alloc, number, rows)?;
    let lives = lives(alloc, view, rows)?;
    put_html(&front, block, writer);
    put_html(&lives, block, writer);
    Ok(())
}

/// Writes the collection with this number in the page, with the names of its codes, if there are any. No text is made for a
/// writer that has failed. If memory runs out, a prefix has been written.
pub fn put_section<W: Write>(
    alloc: Global,
    options: &PageOptions,
    names: Option<&Names>,
    number: u64,
    rows: &Section,
    block: &mut Block,
    writer: &mut Output<W>,
) -> Result<(), AllocError>
    ensures { PutsRows (option_copied names.entry) result (AreOf options.now rows.now)
        (sheet block.old writer.old) (sheet block.new writer.new) }
{
    if writer.failed() {
        return Ok(());
    }
    let view = View {
        names,
        base: options.base,
        collection: name_in(rows),
        catalogue: options.links,
        patterns: options.patterns,
    };
    put_heading(alloc, &view, number, rows, block, writer)?;
    put_code_table(alloc, &view, options, rows, block, writer)?;
    put_stray_table(alloc, &view, rows, block, writer)?;
    put_own(SECTION_END, block, writer);
    Ok(())
}
