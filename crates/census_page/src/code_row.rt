//! Rows of a table of codes.
ghost use Rattle.std.specs.Prelude.{[], ◌∷◌, map};
ghost use Rattle.std.specs.Option.{option_copied};
ghost use Rattle.watched.specs.Telling.{sheet};
ghost use Rattle.census_page.specs.Pages.{Puts, row_at};

use crate::holders::{Holders, row_or_end};
use crate::html::Html;
use crate::kind::{kind_of, push_object_words, row_of};
use crate::links::push_code;
use crate::list::put_list;
use crate::own::{CELL_NEXT, CODE_END, OBJECT, OBJECT_END, ROW_END, SMALL, SMALL_END};
use crate::picture::{push_cell_count, push_picture, push_rle, spelled};
use crate::putting::{put_html, put_own, put_row};
use crate::sorting::{code_in, count_in, rule_in};
use crate::speed::Way;
use crate::view::View;
use crate::walking::way_of;
use census_rows::{Row, Section};
use life_cells::Shape;
use std::alloc::{AllocError, Global};
use std::io::Write;
use watched::{Block, Output};

// The part of a code's row before its name: its picture.
fn code_front(alloc: Global, row: &Row, shape: &Option<Shape>) -> Result<Html, AllocError> {
    let mut html = Html::new(alloc);
    html.own(row_of(kind_of(code_in(row))))?;
    push_picture(&mut html, shape)?;
    html.own(OBJECT)?;
    Ok(html)
}

// The part of a code's row between its name and the patterns that have it: its description in words, the code, its rule, its
// RLE text, its number of cells, and its count.
fn code_middle(
    alloc: Global,
    linked: bool,
    row: &Row,
    shape: &Option<Shape>,
    way: &Option<Way>,
) -> Result<Html, AllocError> {
    let code = code_in(row);
    let rule = rule_in(row);
    let mut html = Html::new(alloc);
    push_object_words(&mut html, code, way)?;
    html.own(OBJECT_END)?;
    push_code(alloc, &mut html, linked, rule, code)?;
    html.own(SMALL)?;
    html.text(alloc, rule)?;
    html.own(SMALL_END)?;
    push_rle(alloc, &mut html, rule, shape)?;
    html.own(CODE_END)?;
    push_cell_count(&mut html, shape)?;
    html.own(CELL_NEXT)?;
    html.grouped(count_in(row))?;
    html.own(CELL_NEXT)?;
    Ok(html)
}

// Writes the row of the table for a row of the report that has a code, with those of these patterns that have it. No text is
// made for a writer that has failed.
fn put_code<W: Write>(
    alloc: Global,
    view: &View,
    holders: &Holders,
    row: &Row,
    block: &mut Block,
    writer: &mut Output<W>,
) -> Result<(), AllocError>
    ensures { Puts (option_copied view.now.names) result (row.now ∷ [])
        (sheet block.old writer.old) (sheet block.new writer.new) }
{
    if writer.failed() {
        return Ok(());
    }
    let here = holders.having(rule_in(row), code_in(row));
    let shape = spelled(alloc, code_in(row))?;
    let way = way_of(alloc, &here, row, &shape)?;
    let front = code_front(alloc, row, &shape)?;
    let middle = code_middle(alloc, view.catalogue, row, &shape, &way)?;
    put_row(alloc, view.names, row, &front, block, writer)?;
    put_html(&middle, block, writer);
    put_list(alloc, view, &here, block, writer)?;
    put_own(ROW_END, block, writer);
    Ok(())
}

/// Writes a row of the table for each row of the report with one of these numbers: the picture, the name, the description, the
/// code, the rule, the count, and the patterns that have the code. If memory runs out, a prefix has been written.
pub fn put_codes<W: Write>(
    alloc: Global,
    view: &View,
    holders: &Holders,
    numbers: &[usize],
    block: &mut Block,
    writer: &mut Output<W>,
) -> Result<(), AllocError>
    ensures { Puts (option_copied view.now.names) result (map (row_at holders.now.rows.now) numbers.now)
        (sheet block.old writer.old) (sheet block.new writer.new) }
{
    for index in 0..numbers.len() {
        let row = row_or_end(holders.rows, numbers[index]);
        put_code(alloc, view, holders, &row, block, writer)?;
    }
    Ok(())
}
