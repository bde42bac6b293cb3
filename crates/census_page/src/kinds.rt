//! The number of kinds of objects.
use crate::chosen::is_code;
use crate::sorting::{code_in, rule_in};
use census_rows::{Row, Rows};
use std::alloc::{AllocError, Global};
use std::cmp::Ordering;

// The row with this number, or the end of a report if there is none.
fn row_or_end<'a>(rows: &Rows<'a>, number: usize) -> Row<'a> {
    if number < rows.len() {
        rows.row(number)
    } else {
        Row::End {
            collections: 0,
            patterns: 0,
        }
    }
}

// The order of the codes of two rows, and of their rules under one code.
fn compared(rows: &Rows, one: usize, other: usize) -> Ordering {
    let one = row_or_end(rows, one);
    let other = row_or_end(rows, other);
    code_in(&one)
        .cmp(code_in(&other))
        .then(rule_in(&one).cmp(rule_in(&other)))
}

// The numbers of the rows that report codes.
fn told_codes(alloc: Global, rows: &Rows) -> Result<Vec<usize>, AllocError> {
    let mut numbers = Vec::new(alloc);
    for index in 0..rows.len() {
        if is_code(&rows.row(index)) {
            numbers.push(index)?;
        }
    }
    Ok(numbers)
}

/// The number of kinds that all rows report. A code that several rows report under one rule is one kind. The only error is out
/// of memory.
pub fn count_kinds(alloc: Global, rows: &Rows) -> Result<u64, AllocError> {
    let mut numbers = told_codes(alloc, rows)?;
    numbers.sort_unstable_by(|one, other| compared(rows, *one, *other));
    let numbers = numbers.as_slice();
    let mut kinds: u64 = 0;
    for index in 0..numbers.len() {
        if index == 0 || compared(rows, numbers[index - 1], numbers[index]).is_ne() {
            kinds = kinds.saturating_add(1);
        }
    }
    Ok(kinds)
}
