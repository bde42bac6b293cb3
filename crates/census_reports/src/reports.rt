//! `census merge`, `table`, `page`, `same` and `verify`: what is written of reports.
ghost use Rattle.std.specs.Prelude.{◌≡◌, ◌⊎◌, ◌<◌, [], false, length, map, IfErr, IfOk, MatchResult};
ghost use Rattle.census_reports.specs.Forms.{SaysOfTexts};
ghost use Rattle.census_reports.specs.Written.{FailsTexts, WritesTexts};
ghost use Rattle.census_reports.specs.Looking.{FailsRead, SaysRead, WritesRead};
ghost use Rattle.census_reports.specs.Outcomes.{ReportsFail, SaysOfReports, WritesReports};

use crate::error::ReportsError;
use crate::form::{Form, write_page, write_same, write_table, write_verdict};
use crate::looking::mend_each;
use crate::merged::write_merged;
use crate::reading::{Reading, Written};
use crate::rows::rows_of;
use crate::words::read_texts;
use census_folders::{Bytes, Shelf, words_or_input};
use std::alloc::Global;
use std::io::{Read, Write};
use watched::{Output, Streams};

// Writes what is made of the reports in these texts, and says before what is compared.
fn write_of<O: Write, E: Write>(
    alloc: Global,
    form: Form<'_>,
    texts: &[Bytes],
    output: &mut Output<O>,
    errors: &mut Output<E>,
) -> Result<bool, ReportsError>
    requires { 0 < length texts.now }
    ensures writes { MatchResult result
        (λ found. WritesTexts form.entry found texts.now output.old.stream output.new.stream)
        (λ error. FailsTexts error form.entry texts.now output.old.stream output.new.stream) }
    ensures says { MatchResult result
        (λ _. SaysOfTexts form.entry texts.now errors.old.stream errors.new.stream)
        (λ _. (errors.new.stream ≡ errors.old.stream) ⊎ SaysOfTexts form.entry texts.now errors.old.stream errors.new.stream) }
{
    match form {
        Form::Merged => write_merged(alloc, texts, output),
        Form::Table {
            subject,
            format,
            names,
        } => {
            let rows = rows_of(alloc, texts)?;
            write_table(alloc, subject, format, names, &rows, output)
        }
        Form::Page { options, names } => {
            let rows = rows_of(alloc, texts)?;
            write_page(alloc, options, names, &rows, output)
        }
        Form::Same { json } => {
            let rows = rows_of(alloc, texts)?;
            write_same(alloc, json, rows, output, errors)
        }
        Form::Verdict { claims } => {
            let rows = rows_of(alloc, texts)?;
            write_verdict(alloc, claims, &rows, output, errors)
        }
    }
}

// Writes what is made of the reports in these texts, which are mended where that is asked for, and says before what is compared.
fn write_read<O: Write, E: Write>(
    alloc: Global,
    form: Form<'_>,
    cut: bool,
    texts: &[Bytes],
    output: &mut Output<O>,
    errors: &mut Output<E>,
) -> Result<Written, ReportsError>
    requires { 0 < length texts.now }
    ensures writes { MatchResult result
        (λ written. WritesRead form.entry cut written texts.now output.old.stream output.new.stream)
        (λ error. FailsRead error cut form.entry texts.now output.old.stream output.new.stream) }
    ensures says { MatchResult result
        (λ _. SaysRead form.entry cut texts.now errors.old.stream errors.new.stream)
        (λ _. (errors.new.stream ≡ errors.old.stream) ⊎ SaysRead form.entry cut texts.now errors.old.stream errors.new.stream) }
{
    if cut {
        let looked = mend_each(alloc, texts)?;
        let found = write_of(alloc, form, looked.texts.as_slice(), output, errors)?;
        return Ok(Written {
            found,
            cuts: looked.cuts,
        });
    }
    let found = write_of(alloc, form, texts, output, errors)?;
    Ok(Written {
        found,
        cuts: Vec::new(alloc),
    })
}

/// Reads the texts of words, in their order, and writes what is made of the reports in them. The text of `-` is what standard
/// input has left, and that of any other word is the file of this path; without a word standard input is read. Each text must be
/// a report by itself, or several one after another; a text without a byte is not a report. A file may be whatever can be read.
/// Where the reading has `cut`, each text is mended first, as `mend` does, and it may be a report
/// that was cut, or several of which the last was; the lines of faults are those of the text as it was read, and the result says
/// where texts were cut. Where the reading has a limit, it is the most bytes of all texts together. Also returns whether what was
/// looked for was found: with `Same`, patterns that are one object, with `Verdict`, what does not agree with the claims;
/// otherwise nothing is looked for.
///
/// With `Same` and `Verdict` a line on standard error says what is compared, before it is: how many of the patterns, where that is
/// not all, and which columns of the claims. Otherwise nothing is written there.
///
/// All texts are read before the first is looked at, and all reports before the first byte is written. From then on no memory is
/// asked for but the block that is written; for a table the text of some rows at a time and its names; for a page its names, the
/// codes and the life spans of one collection and the text of one picture or name at a time; for `Same` a list of the patterns
/// that are objects; and for `Verdict` a list of the patterns, in 50 bytes each, and one claim at a time. So nothing is written
/// on any error but these two: on `Write` a prefix of what is made of them is, and on `Memory` one may be of all but `Merged`:
///
/// - `Unread`: the text of a word can't be read, or has more than 67,108,864 bytes, or has more bytes than the limit together with
///   those of the words before it. Those of the words before it were read, and none of a word after it.
/// - `Fault`: a text is not a report, nor one that was cut where the reading has `cut`, and those of the words before it are.
/// - `Claims`: the text of the claims is not one of claims, and each text is a report.
/// - `Names`: the text of the names of a table or a page is not one of names, and each text is a report.
/// - `TooMany`: the reports have more than 65,535 collections, and `Merged` is asked for.
/// - `Memory`: memory was refused. Of `Merged` nothing was written.
pub fn write_reports<S: Shelf, I: Read, O: Write, E: Write>(
    shelf: &S,
    alloc: Global,
    form: Form<'_>,
    reading: Reading,
    words: &[&str],
    streams: &mut Streams<I, O, E>,
) -> Result<Written, ReportsError>
    requires { streams.old.input.failed ≡ false }
    ensures done { IfOk result
        (λ written. WritesReports form.entry reading written ((S.tellings shelf.now).held []) (map (λ s. s.now) words.now)
        streams.old streams.new) }
    ensures fails { IfErr result
        (λ error. ReportsFail error form.entry reading ((S.tellings shelf.now).held [])
        (map (λ s. s.now) words.now)
        streams.old streams.new) }
    ensures says { MatchResult result
        (λ _. SaysOfReports form.entry reading ((S.tellings shelf.now).held []) (map (λ s. s.now) words.now)
        streams.old streams.new streams.old.errors streams.new.errors)
        (λ _. (streams.new.errors ≡ streams.old.errors) ⊎ SaysOfReports form.entry reading ((S.tellings shelf.now).held [])
        (map (λ s. s.now) words.now) streams.old streams.new streams.old.errors streams.new.errors) }
{
    let texts = read_texts(
        shelf,
        alloc,
        reading.limit,
        words_or_input(words),
        &mut streams.input,
    )?;
    write_read(
        alloc,
        form,
        reading.cut,
        texts.as_slice(),
        &mut streams.output,
        &mut streams.errors,
    )
}
