//! Lists of the patterns that have a code.
ghost use Rattle.watched.specs.Telling.{sheet};
ghost use Rattle.census_page.specs.Pages.{PutsBits};

use crate::holders::{Holders, Place, Share, holder_at};
use crate::html::Html;
use crate::links::push_name;
use crate::own::{
    AND, ITEM, ITEM_END, LIST, LIST_END, MORE, MORE_END, MORE_LIST, ONSET, OTHER, POPULATION,
    SMALL_END, TIMES,
};
use crate::putting::{put_html, put_own};
use crate::view::View;
use census_rows::Section;
use std::alloc::{AllocError, Global};
use std::io::Write;
use watched::{Block, Output};

// The number of patterns of a list that are shown at first, where all are shown.
const SHOWN: usize = 3;

// Adds the relation of a pattern to a code: the number of cells and the onset of one that recurs, or the number of its parts
// that have the code.
fn push_share(html: &mut Html, share: Share) -> Result<(), AllocError> {
    match share {
        Share::Whole {
            population,
            onset,
            ..
        } => {
            html.own(POPULATION)?;
            html.grouped(population)?;
            html.own(ONSET)?;
            html.grouped(onset)
        }
        Share::Parts { count } => {
            html.own(TIMES)?;
            html.grouped(count)
        }
    }
}

// The item of the pattern at a place, or nothing if there is none.
fn item(alloc: Global, view: &View, rows: &Section, place: &Place) -> Result<Html, AllocError> {
    let mut html = Html::new(alloc);
    match holder_at(rows, place) {
        Some(holder) => {
            html.own(ITEM)?;
            push_name(alloc, &mut html, view, holder.name)?;
            push_share(&mut html, holder.share)?;
            html.own(ITEM_END)?;
        }
        None => {}
    }
    Ok(html)
}

// Writes an item for each pattern.
fn put_items<W: Write>(
    alloc: Global,
    view: &View,
    rows: &Section,
    places: &[Place],
    block: &mut Block,
    writer: &mut Output<W>,
) -> Result<(), AllocError>
    ensures { PutsBits result (sheet block.old writer.old) (sheet block.new writer.new) }
{
    for place in places {
        let html = item(alloc, view, rows, place)?;
        put_html(&html, block, writer);
    }
    Ok(())
}

// The text before the items that are shown on request.
fn more_front(alloc: Global, count: usize) -> Result<Html, AllocError> {
    let mut html = Html::new(alloc);
    html.own(MORE)?;
    html.grouped(count as u64)?;
    html.own(MORE_LIST)?;
    Ok(html)
}

// Writes the items that are shown on request.
fn put_more<W: Write>(
    alloc: Global,
    view: &View,
    rows: &Section,
    places: &[Place],
    block: &mut Block,
    writer: &mut Output<W>,
) -> Result<(), AllocError>
    ensures { PutsBits result (sheet block.old writer.old) (sheet block.new writer.new) }
{
    if places.is_empty() {
        return Ok(());
    }
    let front = more_front(alloc, places.len())?;
    put_html(&front, block, writer);
    put_items(alloc, view, rows, places, block, writer)?;
    put_own(MORE_END, block, writer);
    Ok(())
}

// The number of other patterns, as a text, or nothing if there are none.
fn others(alloc: Global, count: usize) -> Result<Html, AllocError> {
    let mut html = Html::new(alloc);
    if count != 0 {
        html.own(AND)?;
        html.grouped(count as u64)?;
        html.own(OTHER)?;
        html.plural(count as u64)?;
        html.own(SMALL_END)?;
    }
    Ok(html)
}

// Writes the first pattern, and the number of others.
fn put_first<W: Write>(
    alloc: Global,
    view: &View,
    holders: &Holders,
    block: &mut Block,
    writer: &mut Output<W>,
) -> Result<(), AllocError>
    ensures { PutsBits result (sheet block.old writer.old) (sheet block.new writer.new) }
{
    let (first, more) = holders.places.split_at(holders.places.len().min(1));
    let others = others(alloc, more.len())?;
    put_own(LIST, block, writer);
    put_items(alloc, view, holders.rows, first, block, writer)?;
    put_own(LIST_END, block, writer);
    put_html(&others, block, writer);
    Ok(())
}

// Writes the first three patterns, and the others to be shown on request.
fn put_all<W: Write>(
    alloc: Global,
    view: &View,
    holders: &Holders,
    block: &mut Block,
    writer: &mut Output<W>,
) -> Result<(), AllocError>
    ensures { PutsBits result (sheet block.old writer.old) (sheet block.new writer.new) }
{
    let (shown, more) = holders.places.split_at(holders.places.len().min(SHOWN));
    put_own(LIST, block, writer);
    put_items(alloc, view, holders.rows, shown, block, writer)?;
    put_own(LIST_END, block, writer);
    put_more(alloc, view, holders.rows, more, block, writer)
}

/// Writes a list of patterns: the first three, and the others to be shown on request. Where not all patterns are shown, it
/// writes the first, and the number of others. If memory runs out, a prefix has been written.
pub fn put_list<W: Write>(
    alloc: Global,
    view: &View,
    holders: &Holders,
    block: &mut Block,
    writer: &mut Output<W>,
) -> Result<(), AllocError>
    ensures { PutsBits result (sheet block.old writer.old) (sheet block.new writer.new) }
{
    if view.patterns {
        return put_all(alloc, view, holders, block, writer);
    }
    put_first(alloc, view, holders, block, writer)
}
