//! What is made of the rows of reports, written.
ghost use Rattle.std.specs.Prelude.{◌≡◌, MatchResult, Ok};
ghost use Rattle.std.specs.Option.{option_copied};
ghost use Rattle.census_readback.specs.Shapes.{AreReports};
ghost use Rattle.census_compare.specs.Claims.{all_read, claims_in};
ghost use Rattle.census_reports.specs.Forms.{MaySay, SaysOfRows, names_given};
ghost use Rattle.census_reports.specs.Written.{FailsRows, WritesRows};

use crate::error::ReportsError;
use crate::kind::has_names;
use census_compare::{Claims, compared_line, counted_note, put_same, put_verdict, read_claims};
use census_facts::{Names, read_names};
use census_page::{PageOptions, put_page};
use census_rows::Rows;
use census_table::{Format, Subject, put_listing, table_of};
use std::alloc::Global;
use std::io::Write;
use watched::{Block, Output, send};

/// What is written of reports.
#[derive(Clone, Copy, Debug, PartialEq, Eq)]
pub enum Form<'a> {
    /// One report of all their collections, as `merge` makes it.
    Merged,
    /// A table, as `table_of` makes it and `put_listing` writes it, with the names of a text, where there is one.
    Table {
        subject: Subject,
        format: Format,
        names: Option<&'a [u8]>,
    },
    /// Their codes, with pictures, as one HTML page, as `put_page` writes it with these options and with the names of a text, where
    /// there is one.
    Page {
        options: PageOptions<'a>,
        names: Option<&'a [u8]>,
    },
    /// Their patterns that are one object, as `put_same` writes them, which is what is looked for.
    Same {
        json: bool,
    },
    /// What does not agree between the claims of a text and their patterns, as `put_verdict` writes it, which is what is looked
    /// for.
    Verdict {
        claims: &'a [u8],
    },
}

// Writes a table with these names, which are those of a text, where there is one. Where memory is refused, what was put in the
// block before is still written.
fn write_named<O: Write>(
    alloc: Global,
    subject: Subject,
    format: Format,
    text: Option<&[u8]>,
    names: Option<&Names>,
    rows: &Rows,
    output: &mut Output<O>,
) -> Result<bool, ReportsError>
    requires names { names_given text ≡ Ok (option_copied names) }
    requires reports { AreReports rows.now }
    ensures { MatchResult result
        (λ found. WritesRows (Form.Table subject format text.entry) found rows.now output.old.stream
        output.new.stream)
        (λ error. FailsRows error (Form.Table subject format text.entry) rows.now
        output.old.stream output.new.stream) }
{
    let table = table_of(alloc, subject, names, rows)?;
    let mut block = Block::new(alloc);
    let told = put_listing(alloc, format, names, &table, &mut block, output);
    match send(&mut block, output) {
        Ok(()) => {
            told?;
            Ok(false)
        }
        Err(_) => Err(ReportsError::Write),
    }
}

// Reads names, where there is a text of them, and writes a table with them.
pub fn write_table<O: Write>(
    alloc: Global,
    subject: Subject,
    format: Format,
    text: Option<&[u8]>,
    rows: &Rows,
    output: &mut Output<O>,
) -> Result<bool, ReportsError>
    requires { AreReports rows.now }
    ensures { MatchResult result
        (λ found. WritesRows (Form.Table subject format text.entry) found rows.now output.old.stream
        output.new.stream)
        (λ error. FailsRows error (Form.Table subject format text.entry) rows.now
        output.old.stream output.new.stream) }
{
    let Some(given) = text else {
        return write_named(alloc, subject, format, text, None, rows, output);
    };
    match read_names(alloc, given)? {
        Ok(names) => write_named(alloc, subject, format, text, Some(&names), rows, output),
        Err(line) => Err(ReportsError::Names { line }),
    }
}

// Writes a page with these names, which are those of a text, where there is one. Where memory is refused, what was put in the
// block before is still written.
fn write_named_page<O: Write>(
    alloc: Global,
    options: PageOptions,
    text: Option<&[u8]>,
    names: Option<&Names>,
    rows: &Rows,
    output: &mut Output<O>,
) -> Result<bool, ReportsError>
    requires names { names_given text ≡ Ok (option_copied names) }
    requires reports { AreReports rows.now }
    ensures { MatchResult result
        (λ found. WritesRows (Form.Page options.entry text.entry) found rows.now output.old.stream
        output.new.stream)
        (λ error. FailsRows error (Form.Page options.entry text.entry) rows.now
        output.old.stream output.new.stream) }
{
    let mut block = Block::new(alloc);
    let told = put_page(alloc, &options, names, rows, &mut block, output);
    match send(&mut block, output) {
        Ok(()) => {
            told?;
            Ok(false)
        }
        Err(_) => Err(ReportsError::Write),
    }
}

// Reads names, where there is a text of them, and writes a page with them.
pub fn write_page<O: Write>(
    alloc: Global,
    options: PageOptions,
    text: Option<&[u8]>,
    rows: &Rows,
    output: &mut Output<O>,
) -> Result<bool, ReportsError>
    requires { AreReports rows.now }
    ensures { MatchResult result
        (λ found. WritesRows (Form.Page options.entry text.entry) found rows.now output.old.stream
        output.new.stream)
        (λ error. FailsRows error (Form.Page options.entry text.entry) rows.now
        output.old.stream output.new.stream) }
{
    let Some(given) = text else {
        return write_named_page(alloc, options, text, None, rows, output);
    };
    match read_names(alloc, given)? {
        Ok(names) => write_named_page(alloc, options, text, Some(&names), rows, output),
        Err(line) => Err(ReportsError::Names { line }),
    }
}

// Says how many patterns are compared, and writes those that are one object. Where memory is refused, what was put in the block
// before is still written.
pub fn write_same<O: Write, E: Write>(
    alloc: Global,
    json: bool,
    rows: Rows,
    output: &mut Output<O>,
    errors: &mut Output<E>,
) -> Result<bool, ReportsError>
    requires { AreReports rows }
    ensures writes { MatchResult result
        (λ found. WritesRows (Form.Same json) found rows.entry output.old.stream output.new.stream)
        (λ error. FailsRows error (Form.Same json) rows.entry
        output.old.stream output.new.stream) }
    ensures says { MatchResult result
        (λ _. SaysOfRows (Form.Same json) rows.entry errors.old.stream errors.new.stream)
        (λ _. MaySay (Form.Same json) rows.entry errors.old.stream errors.new.stream) }
{
    let note = counted_note(alloc, &rows)?;
    errors.tell(note.as_slice());
    let mut block = Block::new(alloc);
    let told = put_same(alloc, json, rows, &mut block, output);
    match send(&mut block, output) {
        Ok(()) => Ok(told?),
        Err(_) => Err(ReportsError::Write),
    }
}

// Writes what does not agree between claims, which are those of a text, and the rows. Where memory is refused, what was put in
// the block before is still written.
fn write_disagreement<O: Write>(
    alloc: Global,
    text: &[u8],
    claims: &Claims,
    rows: &Rows,
    output: &mut Output<O>,
) -> Result<bool, ReportsError>
    requires claims { claims_in text.now ≡ Ok (all_read claims.now) }
    requires reports { AreReports rows.now }
    ensures { MatchResult result
        (λ found. WritesRows (Form.Verdict text.entry) found rows.now output.old.stream
        output.new.stream)
        (λ error. FailsRows error (Form.Verdict text.entry) rows.now
        output.old.stream output.new.stream) }
{
    let mut block = Block::new(alloc);
    let told = put_verdict(alloc, claims, rows, &mut block, output);
    match send(&mut block, output) {
        Ok(()) => Ok(told?),
        Err(_) => Err(ReportsError::Write),
    }
}

// Reads claims, says what is compared, and writes what does not agree between them and the rows.
pub fn write_verdict<O: Write, E: Write>(
    alloc: Global,
    text: &[u8],
    rows: &Rows,
    output: &mut Output<O>,
    errors: &mut Output<E>,
) -> Result<bool, ReportsError>
    requires { AreReports rows.now }
    ensures writes { MatchResult result
        (λ found. WritesRows (Form.Verdict text.entry) found rows.now output.old.stream
        output.new.stream)
        (λ error. FailsRows error (Form.Verdict text.entry) rows.now
        output.old.stream output.new.stream) }
    ensures says { MatchResult result
        (λ _. SaysOfRows (Form.Verdict text.entry) rows.now errors.old.stream errors.new.stream)
        (λ _. MaySay (Form.Verdict text.entry) rows.now errors.old.stream errors.new.stream) }
{
    match read_claims(alloc, text)? {
        Ok(claims) => {
            let note = compared_line(alloc, &claims)?;
            errors.tell(note.as_slice());
            write_disagreement(alloc, text, &claims, rows, output)
        }
        Err(line) => Err(ReportsError::Claims {
            line,
            is_named: line == 1 && has_names(text),
        }),
    }
}
