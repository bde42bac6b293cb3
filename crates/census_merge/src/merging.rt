//! Several reports made one.
//!
//! The merged report has the collections of all reports: first those of the first report, under their numbers, then those of
//! the second, numbered on, and so forth. Nothing else of their rows changes, nor their order. One `end` row is left, which has
//! the sums. A `code` row counts what is in one collection, so none of these are added up. The rows are read from their text
//! one by one, and none is kept.
ghost use Rattle.std.specs.Prelude.{◌≡◌, ◌+◌, ◌<◌, ◌≤◌, ◌^◌, ◌++◌, ℕ, List, length, IfOk, IfSome, MatchOption, MatchResult, Some, None};
ghost use Rattle.watched.specs.Telling.{TellsAfter, sheet};
ghost use Rattle.census_readback.specs.Limits.{count_limit};
ghost use Rattle.census_readback.specs.Texts.{AllLines, IsLine};
ghost use Rattle.census_rows.specs.Lines.{line_of, text_of};
ghost use Rattle.census_rows.specs.declared.row.Row.{Row};
ghost use Rattle.census_rows.specs.declared.row.Row.TheVariants.{End};
ghost use Rattle.census_merge.specs.Counting.{Counts, Exceeds, counted_end, nothing_counted};
ghost use Rattle.census_merge.specs.Merged.{AreFew};
ghost use Rattle.census_merge.specs.Putting.{PutsRow, PutsRows};
ghost use Rattle.census_merge.specs.Sums.{first_excess, sums_of};

use crate::renumber::renumbered_row;
use crate::report_sums::{Sums, sums_at_end};
use census_readback::{behind_line, first_row};
use census_rows::{Row, put_row};
use std::io::Write;
use watched::{Block, Output, put};

/// How many collections and patterns the counted reports have, and the number, from 1, of the next report.
#[derive(Clone, Copy)]
pub struct Counted {
    pub sums: Sums,
    pub report: usize,
}

/// The number, from 1, of the first of several reports with which there are too many collections (more than 65,535) or too many
/// patterns (more than 64 bits can count).
#[derive(Clone, Copy)]
pub struct TooMany {
    pub report: usize,
}

impl Counted {
    /// Before any report.
    pub fn nothing() -> Self
        ensures { result ≡ nothing_counted }
    {
        Counted {
            sums: Sums::none(),
            report: 1,
        }
    }

    // After one more row, where `end` are the sums of the report that it ends, if it ends one. `None` if these are too many for
    // one report together with those before.
    fn after(self, end: Option<Sums>) -> Option<Counted>
        requires few { self.sums.collections ≤ count_limit }
        requires fits { self.report + 1 < 2 ^ 64 }
        ensures { result ≡ counted_end self end }
    {
        let Some(more) = end else {
            return Some(self);
        };
        let sums = self.sums.with(more)?;
        Some(Counted {
            sums,
            report: self.report + 1,
        })
    }
}

// The sums of the report that the first row ends, if it ends one, and what comes after its line. (No field of any other row is
// read.)
fn first_end(text: &[u8]) -> Option<(Option<Sums>, &[u8])>
    ensures shorter { IfSome result (λ end. length end.1.now < length text.now) }
    ensures all { (row : Row) (after : List ℕ) → IsLine row → text.now ≡ line_of row ++ after
        → MatchOption result ⊥ (λ end. (end.0 ≡ sums_of row) × (end.1.now ≡ after)) }
{
    if text.starts_with(b"e") {
        let first = first_row(text)?;
        return Some((sums_at_end(&first.row), first.rest));
    }
    Some((None, behind_line(text)?))
}

/// Counts the reports of a text, one after another, with those that were counted before. `Err` has the first report with which
/// there are too many collections or patterns for one report.
pub fn count(counted: Counted, text: &[u8]) -> Result<Counted, TooMany>
    requires few { counted.sums.collections ≤ count_limit }
    requires fits { counted.report + length text.now < 2 ^ 64 }
    ensures few { IfOk result (λ all. all.sums.collections ≤ count_limit) }
    ensures counts { (rows : List Row) → AllLines rows → text.now ≡ text_of rows
        → MatchResult result (λ all. Counts counted rows all)
        (λ excess. Exceeds counted rows excess.report) }
{
    let mut all = counted;
    let mut rest = text;
    while let Some((end, behind)) = first_end(rest) {
        let Some(more) = all.after(end) else {
            return Err(TooMany { report: all.report });
        };
        all = more;
        rest = behind;
    }
    Ok(all)
}

// Writes a row's line.
fn put_line<W: Write>(row: &Row, block: &mut Block, writer: &mut Output<W>)
    ensures { TellsAfter (line_of row.now) (sheet block.old writer.old)
        (sheet block.new writer.new) }
{
    put_row(row, block, writer);
    put(b"\n", block, writer);
}

// Writes a row, numbered on; if it ends a report, adds its sums instead.
fn put_next<W: Write>(
    sums: Sums,
    row: Row,
    block: &mut Block,
    writer: &mut Output<W>,
) -> Option<Sums>
    requires { sums.collections ≤ count_limit }
    ensures { PutsRow sums row.entry result (sheet block.old writer.old)
        (sheet block.new writer.new) }
{
    let Some(more) = sums_at_end(&row) else {
        put_line(&renumbered_row(sums.collections, row), block, writer);
        return Some(sums);
    };
    sums.with(more)
}

/// Writes the rows of the reports of a text, one after another, without their `end` rows. They are numbered on from the reports
/// before them, which have these sums. Returns the sums of all, or `None` once the writer has failed. Together they must not be
/// too many.
pub fn put_rows<W: Write>(
    sums: Sums,
    text: &[u8],
    block: &mut Block,
    writer: &mut Output<W>,
) -> Option<Sums>
    requires { sums.collections ≤ count_limit }
    ensures few { IfSome result (λ all. all.collections ≤ count_limit) }
    ensures told { (rows : List Row) (report : ℕ) → AllLines rows → text.now ≡ text_of rows
        → AreFew rows → first_excess report sums rows ≡ None
        → PutsRows sums rows result (sheet block.old writer.old)
        (sheet block.new writer.new) }
{
    let mut all = sums;
    let mut rest = text;
    while let Some(first) = first_row(rest) {
        if writer.failed() {
            return None;
        }
        let Some(with) = put_next(all, first.row, block, writer) else {
            return None;
        };
        all = with;
        rest = first.rest;
    }
    Some(all)
}

/// Writes the `end` row of all reports.
pub fn put_end<W: Write>(sums: Sums, block: &mut Block, writer: &mut Output<W>)
    ensures { TellsAfter (line_of (End sums.collections sums.patterns))
        (sheet block.old writer.old) (sheet block.new writer.new) }
{
    let end = Row::End {
        collections: sums.collections,
        patterns: sums.patterns,
    };
    put_line(&end, block, writer);
}
