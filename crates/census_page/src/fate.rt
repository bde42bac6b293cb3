//! The fates of patterns that do not recur.
ghost use Rattle.std.specs.Prelude.{◌≡◌, [], ◌∷◌};
ghost use Rattle.std.specs.List.{flat_map};
ghost use Rattle.std.specs.Option.{option_copied};
ghost use Rattle.watched.specs.Telling.{sheet};
ghost use Rattle.census_page.specs.Pages.{Puts, has_row, stray_in};

use crate::growth::put_growth;
use crate::html::Html;
use crate::links::push_name;
use crate::own::{
    AT_GENERATION, CELL_NEXT, FROM_GENERATION, NAME_END, OBJECTS, ON, ROW_END, RULE_END,
    SMALL_NEXT, STRAY_ROW, TOO_MANY_CELLS, WITHIN_BOUND,
};
use crate::parts::push_parts;
use crate::putting::{put_html, put_row};
use crate::view::View;
use census_faults::fault_words;
use census_readback::rows_behind;
use census_rows::{Behind, Finding, Outcome, Row, Section};
use std::alloc::{AllocError, Global};
use std::io::Write;
use watched::{Block, Output};

// Adds the words for a pattern that has fallen apart.
fn push_ash(html: &mut Html, onset: u64, objects: u64) -> Result<(), AllocError> {
    html.grouped(objects)?;
    html.own(OBJECTS)?;
    html.plural(objects)?;
    html.own(FROM_GENERATION)?;
    html.grouped(onset)?;
    html.own(ON)
}

// Adds the finding about a pattern that does not recur.
fn push_finding(html: &mut Html, finding: &Finding) -> Result<(), AllocError> {
    match finding {
        Finding::Ok { .. } | Finding::Grows { .. } => Ok(()),
        Finding::Ash { onset, objects } => push_ash(html, *onset, *objects),
        Finding::Unresolved => html.own(WITHIN_BOUND),
        Finding::Large { generation } => {
            html.own(AT_GENERATION)?;
            html.grouped(*generation)?;
            html.own(TOO_MANY_CELLS)
        }
    }
}

// Adds the rule after a name, the number of cells at first, and the finding.
fn push_found(
    alloc: Global,
    html: &mut Html,
    rule: &[u8],
    population: u64,
    finding: &Finding,
) -> Result<(), AllocError> {
    html.own(SMALL_NEXT)?;
    html.text(alloc, rule)?;
    html.own(RULE_END)?;
    html.grouped(population)?;
    html.own(CELL_NEXT)?;
    push_finding(html, finding)
}

// Adds the text after a pattern's name: its rule, its number of cells and its fate, or the reason why it was refused.
fn push_fate(alloc: Global, html: &mut Html, outcome: &Outcome) -> Result<(), AllocError> {
    match outcome {
        Outcome::Found {
            rule,
            population,
            finding,
        } => push_found(alloc, html, *rule, *population, finding),
        Outcome::Bad { fault } => {
            html.own(NAME_END)?;
            let words = fault_words(alloc, *fault)?;
            html.value(words.as_slice())
        }
    }
}

/// True where a pattern has a row of its own: with `patterns`, each that does not recur, and otherwise only an unresolved one.
pub fn has_row(patterns: bool, outcome: &Outcome) -> bool
    ensures { result ≡ has_row patterns outcome.now }
{
    match outcome {
        Outcome::Found { finding, .. } => match finding {
            Finding::Ok { .. } => false,
            Finding::Unresolved | Finding::Large { .. } => true,
            Finding::Ash { .. } | Finding::Grows { .. } => patterns,
        },
        Outcome::Bad { .. } => patterns,
    }
}

// The name of the pattern of a row.
fn name_in<'a>(row: &Row<'a>) -> &'a [u8] {
    match row {
        Row::Line { name, .. } => *name,
        _ => b"",
    }
}

// The rule that was found for a pattern, or nothing if it was refused.
fn rule_found<'a>(outcome: &Outcome<'a>) -> &'a [u8] {
    match outcome {
        Outcome::Found { rule, .. } => *rule,
        Outcome::Bad { .. } => b"",
    }
}

// The text before the objects of a pattern: its name, its rule, its number of cells and its fate.
fn fate_head(
    alloc: Global,
    view: &View,
    name: &[u8],
    outcome: &Outcome,
) -> Result<Html, AllocError> {
    let mut html = Html::new(alloc);
    html.own(STRAY_ROW)?;
    push_name(alloc, &mut html, view, name)?;
    push_fate(alloc, &mut html, outcome)?;
    Ok(html)
}

// The text after the objects that it emits: the objects that it consists of.
fn fate_end(alloc: Global, linked: bool, rule: &[u8], parts: &Section) -> Result<Html, AllocError> {
    let mut html = Html::new(alloc);
    push_parts(alloc, &mut html, linked, rule, parts)?;
    html.own(ROW_END)?;
    Ok(html)
}

// Writes a row of the table with the name and the fate of a pattern. The rows after its row report how it grows, or its parts.
fn put_fate<W: Write>(
    alloc: Global,
    view: &View,
    row: &Row,
    outcome: &Outcome,
    behind: &Section,
    block: &mut Block,
    writer: &mut Output<W>,
) -> Result<(), AllocError>
    ensures { Puts (option_copied view.now.names) result (row.now ∷ [])
        (sheet block.old writer.old) (sheet block.new writer.new) }
{
    let linked = view.catalogue;
    let rule = rule_found(outcome);
    let head = fate_head(alloc, view, name_in(row), outcome)?;
    let end = fate_end(alloc, linked, rule, &rows_behind(Behind::Parts, behind))?;
    let growth = rows_behind(Behind::Engines, behind);
    put_row(alloc, view.names, row, &head, block, writer)?;
    put_growth(alloc, linked, rule, &growth, block, writer)?;
    put_html(&end, block, writer);
    Ok(())
}

// Writes the row of the table for a row of the report that these follow, if it reports a pattern with a row of its own.
fn put_stray<W: Write>(
    alloc: Global,
    view: &View,
    row: &Row,
    behind: &Section,
    block: &mut Block,
    writer: &mut Output<W>,
) -> Result<(), AllocError>
    ensures { Puts (option_copied view.now.names) result (stray_in view.now.patterns row.now)
        (sheet block.old writer.old) (sheet block.new writer.new) }
{
    match row {
        Row::Line { outcome, .. } => {
            if !has_row(view.patterns, outcome) {
                return Ok(());
            }
            put_fate(alloc, view, row, outcome, behind, block, writer)
        }
        _ => Ok(()),
    }
}

/// Writes a row of a table for each pattern that has one of its own. If memory runs out, a prefix has been written.
pub fn put_strays<W: Write>(
    alloc: Global,
    view: &View,
    rows: &Section,
    block: &mut Block,
    writer: &mut Output<W>,
) -> Result<(), AllocError>
    ensures { Puts (option_copied view.now.names) result (flat_map (stray_in view.now.patterns) rows.now)
        (sheet block.old writer.old) (sheet block.new writer.new) }
{
    for index in 0..rows.len() {
        let row = rows.row(index);
        let behind = rows.from(index + 1);
        put_stray(alloc, view, &row, &behind, block, writer)?;
    }
    Ok(())
}
