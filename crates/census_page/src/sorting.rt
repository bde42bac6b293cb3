//! The order of the rows of a table of codes.
ghost use Rattle.std.specs.Prelude.{◌≡◌, map, OnOk};
ghost use Rattle.std.specs.List.Sorted.{IsNonDecreasingBy, IsPermutation};
ghost use Rattle.census_page.specs.Pages.{IsInOrder, count_in, row_at};

use crate::holders::{Holders, row_or_end};
use crate::kind::period_told;
use crate::options::Sort;
use census_rows::{Row, Section};
use std::alloc::AllocError;
use std::cmp::Ordering;

/// The count of a row's code, or 0 if the row has none.
pub fn count_in(row: &Row) -> u64
    ensures { result ≡ count_in row.now }
{
    match row {
        Row::Code { count, .. } => *count,
        _ => 0,
    }
}

/// The rule of a row's code.
pub fn rule_in<'a>(row: &Row<'a>) -> &'a [u8] {
    match row {
        Row::Code { rule, .. } => *rule,
        _ => b"",
    }
}

/// The code of a row.
pub fn code_in<'a>(row: &Row<'a>) -> &'a [u8] {
    match row {
        Row::Code { code, .. } => *code,
        _ => b"",
    }
}

// The name of the first pattern that has the code of a row.
fn name_in<'a>(holders: &Holders<'_, '_, 'a>, row: &Row) -> &'a [u8] {
    match holders.having(rule_in(row), code_in(row)).first() {
        Some(holder) => holder.name,
        None => b"",
    }
}

// The order of texts by their length, and then by their bytes.
fn shorter(one: &[u8], other: &[u8]) -> Ordering {
    one.len().cmp(&other.len()).then(one.cmp(other))
}

// The order of two rows.
fn compared(sort: Sort, holders: &Holders, one: &Row, other: &Row) -> Ordering {
    match sort {
        Sort::Report | Sort::Rare => Ordering::Equal,
        Sort::Count => count_in(other).cmp(&count_in(one)),
        Sort::Code => shorter(code_in(one), code_in(other)).then(rule_in(one).cmp(rule_in(other))),
        Sort::Period => shorter(period_told(code_in(other)), period_told(code_in(one))),
        Sort::Name => name_in(holders, one).cmp(name_in(holders, other)),
    }
}

// The count of the code of the row with this number.
fn count_at(rows: &Section, number: usize) -> u64
    ensures { result ≡ count_in (row_at rows.now number) }
{
    count_in(&row_or_end(rows, number))
}

// Sorts the numbers of rows by the counts of their codes, the rarest first. Rows with equal counts keep their order.
fn sort_rare(rows: &Section, numbers: &mut Vec<usize>) -> Result<(), AllocError>
    ensures permutation { IsPermutation numbers.old.items numbers.new.items }
    ensures ordered { OnOk result (IsNonDecreasingBy count_in (map (row_at rows.now) numbers.new.items)) }
{
    numbers.sort_by_key(|number| count_at(rows, *number))?;
    Ok(())
}

// Sorts the numbers of rows in another order.
fn sort_otherwise(sort: Sort, holders: &Holders, numbers: &mut Vec<usize>) -> Result<(), AllocError>
    ensures { IsPermutation numbers.old.items numbers.new.items }
{
    let rows = holders.rows;
    numbers.sort_by(|one, other| {
        compared(
            sort,
            holders,
            &row_or_end(rows, *one),
            &row_or_end(rows, *other),
        )
    })
}

/// Sorts the numbers of rows in an order of the rows, where these patterns have their codes. Rows that are equal in it keep
/// their order. The only error is out of memory.
pub fn sort_rows(sort: Sort, holders: &Holders, numbers: &mut Vec<usize>) -> Result<(), AllocError>
    ensures permutation { IsPermutation numbers.old.items numbers.new.items }
    ensures ordered { OnOk result (IsInOrder sort (map (row_at holders.now.rows.now) numbers.new.items)) }
{
    match sort {
        Sort::Report => Ok(()),
        Sort::Rare => {
            sort_rare(holders.rows, numbers)?;
            Ok(())
        }
        _ => {
            sort_otherwise(sort, holders, numbers)?;
            Ok(())
        }
    }
}
