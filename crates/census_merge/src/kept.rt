//! The rows that are kept.
ghost use Rattle.std.specs.Prelude.{◌≡◌, ◌<◌, ◌≤◌, ◌^◌, ◌++◌, length, IfOk, OnOk};
ghost use Rattle.census_readback.specs.Limits.{count_limit};
ghost use Rattle.census_readback.specs.Shapes.{AreOfCollections, patterns_in};
ghost use Rattle.census_readback.specs.Steps.{collection_of};
ghost use Rattle.census_merge.specs.Kept.{kept_of, kept_rows, numbered, report_of};
ghost use Rattle.census_merge.specs.Numbers.{AreNumbers, CanBeKept, kept_as};

use crate::ended::whole_count;
use crate::numbering::numbers_of;
use crate::renumber::numbered;
use census_readback::{collection_of, patterns_opened};
use census_rows::Row;
use std::alloc::{AllocError, Global};

// A row as it is kept, if its collection has a number.
fn kept_row<'a>(numbers: &[u64], row: Row<'a>) -> Option<Row<'a>>
    requires low { 0 < collection_of row }
    requires high { collection_of row ≤ length numbers.now }
    ensures { result ≡ kept_as numbers.now row.entry }
{
    let number = numbers[collection_of(&row) as usize - 1];
    if 0 < number {
        Some(numbered(number, row))
    } else {
        None
    }
}

// The rows of the collections that are closed, under their numbers.
fn kept_of<'a>(alloc: Global, rows: &[Row<'a>], numbers: &[u64]) -> Result<Vec<Row<'a>>, AllocError>
    requires numbers { AreNumbers rows.now numbers.now }
    requires owned { AreOfCollections count_limit rows.now }
    ensures { IfOk result (λ kept. kept.items ≡ kept_of rows.now rows.now) }
{
    let mut kept = Vec::new(alloc);
    for row in rows {
        if let Some(row) = kept_row(numbers, *row) {
            kept.push(row)?;
        }
    }
    Ok(kept)
}

// How many patterns the collections have.
fn patterns_in(rows: &[Row]) -> u64
    requires { patterns_in rows.now < 2 ^ 64 }
    ensures { result ≡ patterns_in rows.now }
{
    let mut patterns = 0;
    for row in rows {
        patterns += patterns_opened(row);
    }
    patterns
}

// Adds the report of the collections that the rows of one report close.
fn push_report<'a>(
    alloc: Global,
    rows: &[Row<'a>],
    kept: &mut Vec<Row<'a>>,
) -> Result<(), AllocError>
    requires owned { AreOfCollections count_limit rows.now }
    requires fits { patterns_in (kept_of rows.now rows.now) < 2 ^ 64 }
    ensures { OnOk result (kept.new.items ≡ kept.old.items ++ report_of rows.now) }
{
    let numbers = numbers_of(alloc, rows)?;
    let mut own = kept_of(alloc, rows, numbers.each.as_slice())?;
    let patterns = patterns_in(own.as_slice());
    own.push(Row::End {
        collections: numbers.count,
        patterns,
    })?;
    kept.append(&mut own)?;
    Ok(())
}

// The rows that are kept.
pub fn kept_rows<'a>(alloc: Global, rows: &[Row<'a>]) -> Result<Vec<Row<'a>>, AllocError>
    requires { CanBeKept rows.now }
    ensures { IfOk result (λ kept. kept.items ≡ kept_rows rows.now) }
{
    let at = whole_count(rows);
    let mut kept = Vec::new(alloc);
    kept.extend_from_slice(&rows[..at])?;
    push_report(alloc, &rows[at..], &mut kept)?;
    Ok(kept)
}
