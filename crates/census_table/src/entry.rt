//! The patterns of a report.
ghost use Rattle.std.specs.Prelude.{◌≡◌, ◌++◌, [], IfOk, OnOk};
ghost use Rattle.std.specs.List.{cons_option};
ghost use Rattle.std.specs.Option.{option_map};
ghost use Rattle.census_table.specs.Entries.{engines_in, entries_under, entry_of_row, first_way, only_way, way_in, with_way};

use census_rows::{Label, Outcome, Row, Section, Value};
use std::alloc::{AllocError, Global};

/// The motion of an engine: its period, and how far to the right and down it moves in one.
#[derive(Clone, Copy)]
pub struct EngineWay {
    pub period: u64,
    pub dx: i64,
    pub dy: i64,
}

/// A pattern of a table. Numbers count from 1.
#[derive(Clone, Copy)]
pub struct Entry<'a> {
    pub collection: u64,
    pub collection_name: &'a [u8],
    pub pattern: u64,
    pub name: &'a [u8],
    pub outcome: Outcome<'a>,
    /// The motion of its engine, where it has only one and the rows after its line were read.
    pub way: Option<EngineWay>,
}

// The pattern that a row reports, from that row alone, in the collection that `heading` opens and that has this number.
pub fn entry_of_row<'a>(number: u64, heading: &Row<'a>, row: &Row<'a>) -> Option<Entry<'a>>
    ensures { result ≡ entry_of_row number heading.now row.now }
{
    match row {
        Row::Line {
            pattern,
            outcome,
            name,
            ..
        } => match heading {
            Row::Open {
                name: collection_name,
                ..
            } => Some(Entry {
                collection: number,
                collection_name,
                pattern: *pattern,
                name,
                outcome: *outcome,
                way: None,
            }),
            _ => None,
        },
        _ => None,
    }
}

// The number of a pattern's engines.
fn engines_in(outcome: &Outcome) -> u64
    ensures { result ≡ engines_in outcome.now }
{
    match outcome.value(Label::Engines) {
        Some(Value::Number(engines)) => engines,
        _ => 0,
    }
}

// The motion of the engine that a row reports, if it reports one.
fn way_in(row: &Row) -> Option<EngineWay>
    ensures { result ≡ way_in row.now }
{
    match row {
        Row::Engine { period, dx, dy, .. } => Some(EngineWay {
            period: *period,
            dx: *dx,
            dy: *dy,
        }),
        _ => None,
    }
}

// The motion of the engine that the first of these rows reports, if it reports one.
fn first_way(rows: &Section) -> Option<EngineWay>
    ensures { result ≡ first_way rows.now }
{
    match rows.split_first() {
        Some((row, _)) => way_in(&row),
        None => None,
    }
}

// The motion of the only engine of a pattern whose line these rows follow.
fn only_way(outcome: &Outcome, behind: &Section) -> Option<EngineWay>
    ensures { result ≡ only_way outcome.now behind.now }
{
    if engines_in(outcome) == 1 {
        first_way(behind)
    } else {
        None
    }
}

// A pattern with the motion of its engine, from the rows after its line.
pub fn with_way<'a>(entry: Entry<'a>, behind: &Section) -> Entry<'a>
    ensures { result ≡ with_way entry.entry behind.now }
{
    Entry {
        way: only_way(&entry.outcome, behind),
        ..entry
    }
}

// Adds the pattern of a row that these follow, if it reports one, in the collection that `heading` opens and that has this
// number.
fn push_entry<'a>(
    entries: &mut Vec<Entry<'a>>,
    number: u64,
    heading: &Row<'a>,
    row: &Row<'a>,
    behind: &Section,
) -> Result<(), AllocError>
    ensures { OnOk result (entries.new.items ≡ entries.old.items
        ++ cons_option (option_map (λ entry. with_way entry behind.now) (entry_of_row number heading.now row.now)) []) }
{
    if let Some(entry) = entry_of_row(number, heading, row) {
        entries.push(with_way(entry, behind))?;
    }
    Ok(())
}

/// The patterns of these rows, in their order, in the collection that `heading` opens and that has this number. The only error
/// is out of memory.
pub fn entries_under<'a>(
    alloc: Global,
    number: u64,
    heading: &Row<'a>,
    rows: &Section<'_, 'a>,
) -> Result<Vec<Entry<'a>>, AllocError>
    ensures { IfOk result
        (λ entries. entries.items ≡ entries_under number heading.now rows.now) }
{
    let mut entries = Vec::new(alloc);
    for index in 0..rows.len() {
        let row = rows.row(index);
        let behind = rows.from(index + 1);
        push_entry(&mut entries, number, heading, &row, &behind)?;
    }
    Ok(entries)
}
