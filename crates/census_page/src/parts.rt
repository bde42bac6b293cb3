//! The objects that patterns consist of.
use crate::html::Html;
use crate::links::push_counted;
use crate::own::{AND, ITEM, LIST, LIST_END, OTHER, SMALL_END};
use census_rows::{Row, Section};
use std::alloc::{AllocError, Global};

// The greatest number of codes of a pattern's parts that are listed.
const TOLD: usize = 100;

// Adds the item of a row that reports parts.
fn push_part(
    alloc: Global,
    html: &mut Html,
    linked: bool,
    rule: &[u8],
    row: &Row,
) -> Result<(), AllocError> {
    match row {
        Row::Part { code, count, .. } => {
            html.own(ITEM)?;
            push_counted(alloc, html, linked, rule, *code, *count)
        }
        _ => Ok(()),
    }
}

// Adds the words for `number` more, unless it is 0.
fn push_others(html: &mut Html, number: u64) -> Result<(), AllocError> {
    if number == 0 {
        return Ok(());
    }
    html.own(AND)?;
    html.grouped(number)?;
    html.own(OTHER)?;
    html.plural(number)?;
    html.own(SMALL_END)
}

/// Appends a list of the codes of a pattern's parts, which these rows report: the first hundred, and the number of the others.
/// Without rows nothing is appended. The only error is out of memory.
pub fn push_parts(
    alloc: Global,
    html: &mut Html,
    linked: bool,
    rule: &[u8],
    rows: &Section,
) -> Result<(), AllocError> {
    if rows.len() == 0 {
        return Ok(());
    }
    let told = rows.len().min(TOLD);
    html.own(LIST)?;
    for index in 0..told {
        push_part(alloc, html, linked, rule, &rows.row(index))?;
    }
    html.own(LIST_END)?;
    push_others(html, (rows.len() - told) as u64)
}
