//! Reports read back.
//!
//! A report is the sections of its collections, which have the numbers from 1 on, and then its `end` line. The sections are
//! interleaved line by line in any way that keeps each section's order. Several reports may come one after another. A section
//! is its `open` line, the lines of its patterns in order, its `code` lines, and its `close` line. An `ash` line is directly
//! followed by its `part` lines, a `grows` line by its `engine` lines, and each `engine` line by its `emits` lines. Numbers of
//! collections and patterns are at most 65,535. Names are lawful, rules are as they are printed, and codes have a number
//! before the first `_` and a body of `0-9a-z` after it. The code of an `ok` line begins as its period and displacement say,
//! and its pattern moves by at most a cell in a generation. The `part` lines have all objects of their line, in the order of
//! codes. Lines of every kind may be in any collection.
//!
//! The `engine` lines have all engines of their line, at least one, and count from 1. Their periods are 1 to 10,000, and they
//! move by at most a cell in a generation. Each has `emits` lines, in the order of codes, with numbers from 1 on. The `engine`
//! lines are in the order of periods, of how far they move to the right and down, and of what they emit, entry by entry; no two
//! say the same.
//!
//! The `code` lines of a collection are what its lines count. For each rule and code that `ok` and `part` lines have, in the
//! order of first appearance, there is one line. Its number is that of these `ok` lines plus the sum of the counts of these
//! `part` lines. Whether a body can be drawn is not looked at.
ghost use Rattle.std.specs.Prelude.{◌≡◌, ◌⊎◌, ◌++◌, ℕ, List, None, Some, IfOk, IsFalse, IsTrue, MatchOption, MatchResult};
ghost use Rattle.census_readback.specs.Steps.{reading_of, step};
ghost use Rattle.census_readback.specs.Told.{told_after, told_of};
ghost use Rattle.census_rows.specs.declared.row.Row.{Row};
ghost use Rattle.census_readback.specs.Reports.{IsFault, ReadsAsReports};
ghost use Rattle.census_readback.specs.Texts.{Ends, SameRows};

use crate::lines::{behind_rows, first_row, read_rows};
use crate::progress::Progress;
use crate::told::Told;
use census_rows::{Row, Rows};
use std::alloc::{AllocError, Global};
use std::mem::replace;

// Takes a row, if it may come here and says what a report says here.
fn take<'a>(
    alloc: Global,
    progress: &mut Progress<'a>,
    told: &mut Told<'a>,
    row: &Row<'a>,
) -> Result<bool, AllocError>
    ensures told { IfOk result (λ taken. IsTrue taken
        → told_after (told_of told.old) row.now ≡ Some (told_of told.new)) }
    ensures goes { IfOk result (λ taken. IsTrue taken
        → step (reading_of progress.old) row.now ≡ Some (reading_of progress.new)) }
    ensures no { IfOk result (λ taken. IsFalse taken
        → (told_after (told_of told.old) row.now ≡ None)
        ⊎ (step (reading_of progress.old) row.now ≡ None)) }
{
    let before = replace(told, Told::nothing(alloc));
    let Some(more) = before.after(alloc, row)? else {
        return Ok(false);
    };
    if !progress.take(alloc, row)? {
        return Ok(false);
    }
    *told = more;
    Ok(true)
}

// The number of a wrong line, before the rest of the text.
fn first_fault(number: usize, rest: &[u8]) -> usize
    ensures value { result ≡ number }
    ensures ends { (end : List ℕ) × Ends rest.now end }
{
    let _end = behind_rows(rest);
    number
}

/// The number, from 1, of the first wrong line of a text: a line that is no row, a row that may not come where it does or says
/// what no report says there, or the line that is missing after the last. `None` if the text is a report, or several, one after
/// another. No row is kept.
pub fn fault_of(alloc: Global, text: &[u8]) -> Result<Option<usize>, AllocError>
    ensures sound { IfOk result (λ fault. MatchOption fault
        ((rows : List Row) × ReadsAsReports rows text.now) (λ line. IsFault text.now line)) }
    ensures all { (rows : List Row) → ReadsAsReports rows text.now
        → IfOk result (λ fault. fault ≡ None) }
{
    let mut progress = Progress::start(alloc);
    let mut told = Told::nothing(alloc);
    let mut rest = text;
    let mut number = 1;
    while let Some(first) = first_row(rest) {
        if !take(alloc, &mut progress, &mut told, &first.row)? {
            return Ok(Some(first_fault(number, first.rest)));
        }
        rest = first.rest;
        number += 1;
    }
    if progress.ended && rest.is_empty() {
        Ok(None)
    } else {
        Ok(Some(number))
    }
}

/// Appends the rows of a report, or of several, one after another. `Err` has the line of the fault, as `fault_of` returns it;
/// the rows are then unchanged. If memory is refused, some rows may have been appended.
pub fn read_report<'a>(
    alloc: Global,
    text: &'a [u8],
    rows: &mut Rows<'a>,
) -> Result<Result<(), usize>, AllocError>
    ensures sound { IfOk result (λ read. MatchResult read
        (λ _. (own : List Row) × ReadsAsReports own text.now × (rows.new ≡ rows.old ++ own))
        (λ line. IsFault text.now line × (rows.new ≡ rows.old))) }
    ensures all { (told : List Row) → ReadsAsReports told text.now
        → IfOk result (λ read. MatchResult read
        (λ _. (own : List Row) × SameRows own told × (rows.new ≡ rows.old ++ own)) (λ line. ⊥)) }
{
    match fault_of(alloc, text)? {
        Some(line) => Ok(Err(line)),
        None => {
            read_rows(text, rows)?;
            Ok(Ok(()))
        }
    }
}
