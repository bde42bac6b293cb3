//! The codes in the table of a collection.
ghost use Rattle.std.specs.Prelude.{◌≡◌, [], ◌∷◌, ◌++◌, if◌then◌else◌, map, IfOk, OnOk};
ghost use Rattle.std.specs.List.{flat_map};
ghost use Rattle.census_page.specs.Pages.{AreCodes, code_in, first_of, row_at};

use crate::holders::{Holders, row_or_end};
use crate::options::PageOptions;
use crate::sorting::sort_rows;
use crate::tally::{Which, count_among};
use census_rows::{Row, Section};
use std::alloc::{AllocError, Global};

/// True where a row reports a code.
pub fn is_code(row: &Row) -> bool
    ensures { code_in row.now ≡ (if result then row.now ∷ [] else []) }
{
    match row {
        Row::Code { .. } => true,
        _ => false,
    }
}

// Adds the number of a row if that row reports a code.
fn note_code(rows: &Section, index: usize, numbers: &mut Vec<usize>) -> Result<(), AllocError>
    ensures { OnOk result (map (row_at rows.now) numbers.new.items
        ≡ map (row_at rows.now) numbers.old.items ++ code_in (row_at rows.now index)) }
{
    if !is_code(&row_or_end(rows, index)) {
        return Ok(());
    }
    numbers.push(index)?;
    Ok(())
}

// The numbers of the rows that report codes.
fn told_codes(alloc: Global, rows: &Section) -> Result<Vec<usize>, AllocError>
    ensures { IfOk result (λ numbers. map (row_at rows.now) numbers.items ≡ flat_map code_in rows.now) }
{
    let mut numbers = Vec::with_capacity(alloc, count_among(Which::Codes, rows))?;
    for index in 0..rows.len() {
        note_code(rows, index, &mut numbers)?;
    }
    Ok(numbers)
}

// Keeps the first `top` numbers, or all if there is no limit.
fn cut(top: Option<u64>, numbers: &mut Vec<usize>)
    ensures { numbers.new.items ≡ first_of top numbers.old.items }
{
    match top {
        Some(count) => numbers.truncate(count as usize),
        None => {}
    }
}

/// The numbers of the rows that report codes, in the order of the options, where these patterns have the codes. There are at
/// most as many rows as the options allow. The only error is out of memory.
pub fn chosen(
    alloc: Global,
    options: &PageOptions,
    holders: &Holders,
) -> Result<Vec<usize>, AllocError>
    ensures { IfOk result (λ numbers. AreCodes options.now holders.now.rows.now
        (map (row_at holders.now.rows.now) numbers.items)) }
{
    let mut numbers = told_codes(alloc, holders.rows)?;
    sort_rows(options.sort, holders, &mut numbers)?;
    cut(options.top, &mut numbers);
    Ok(numbers)
}
