//! `census merge`, `table`, `page`, `same` and `verify`: one report, a table, a page, patterns that are one object, or
//! what does not agree with claims, made of reports.
ghost use Rattle.std.specs.Prelude.{◌≡◌, ◌⊎◌, [], false, map, option_map, IfErr, IfOk, MatchResult, OnOk};
ghost use Rattle.census_reports.specs.Outcomes.{ReportsFail, SaysOfReports, WritesReports};
ghost use Rattle.census_command.specs.Forms.{reading_of};
ghost use Rattle.census_command.specs.Remakes.{KeepsLaw, Remakes, RemakesWith, TellsCuts, found_status};
ghost use Rattle.census_command.specs.Streams.{HasSoundStreams};

use crate::forms::{Beside, form_beside, reading_of};
use census_cli::Reports;
use census_errors::{cut_line, stop_at_file};
use census_folders::Shelf;
use census_merge::Cut;
use census_reports::{
    Form, Reading, ReportsError, Written, merge_reports, read_text, write_reports,
};
use std::alloc::Global;
use std::io::{Read, Write};
use watched::{Output, Streams};

// Writes what this form makes of the reports of these files: one report as `merge_reports` does, which keeps the law, and
// anything else as `write_reports` does.
fn write<S: Shelf, I: Read, O: Write, E: Write>(
    shelf: &S,
    alloc: Global,
    form: Form<'_>,
    reading: Reading,
    files: &[&str],
    streams: &mut Streams<I, O, E>,
) -> Result<Written, ReportsError>
    requires sound { HasSoundStreams streams.old }
    ensures done { IfOk result
        (λ written. WritesReports form.entry reading written ((S.tellings shelf.now).held []) (map (λ s. s.now) files.now)
        streams.old streams.new) }
    ensures fails { IfErr result
        (λ error. ReportsFail error form.entry reading ((S.tellings shelf.now).held [])
        (map (λ s. s.now) files.now)
        streams.old streams.new) }
    ensures lawful { OnOk result
        (KeepsLaw form.entry reading ((S.tellings shelf.now).held []) (map (λ s. s.now) files.now) streams.old
        streams.new) }
    ensures says { MatchResult result
        (λ _. SaysOfReports form.entry reading ((S.tellings shelf.now).held []) (map (λ s. s.now) files.now)
        streams.old streams.new streams.old.errors streams.new.errors)
        (λ _. (streams.new.errors ≡ streams.old.errors) ⊎ SaysOfReports form.entry reading ((S.tellings shelf.now).held [])
        (map (λ s. s.now) files.now) streams.old streams.new streams.old.errors streams.new.errors) }
{
    match form {
        Form::Merged => merge_reports(shelf, alloc, reading, files, streams),
        Form::Table { .. } | Form::Page { .. } | Form::Same { .. } | Form::Verdict { .. } => {
            write_reports(shelf, alloc, form, reading, files, streams)
        }
    }
}

/// The exit status where all was written: 5 where what was looked for was found.
pub fn found_status(found: bool) -> u8
    ensures { result ≡ found_status found }
{
    if found { 5 } else { 0 }
}

// Reports a line for each text that was cut. It asks for no memory, and a line that can't be written changes nothing.
fn tell_cuts<E: Write>(cuts: &[Cut], errors: &mut Output<E>)
    ensures { TellsCuts cuts.now errors.old.stream errors.new.stream }
{
    for cut in cuts {
        errors.tell(cut_line(*cut).as_str().as_bytes());
    }
}

/// Reads these reports, writes what this form makes of them, and returns the exit status. For `-`, and without a file, those of
/// standard input are read. `beside` is the word of the text that the form has, where it has one.
///
/// - 0: it was written.
/// - 5: it was written, and what was looked for was found.
/// - 1: a text is not a report, or is too long, or all are together, or the reports have too many collections for one report, or
///   a text that was read before them is faulty; nothing was written.
/// - 3: memory was refused, and nothing was written, or a prefix of what is not a report.
/// - 4: a file can't be read or standard input has failed, and nothing was written; or standard output has failed, and a prefix
///   was.
///
/// With `same` and `verify` a line says what is compared, before it is. After it, with status 0 or 5 a line was reported for each
/// text that was cut, and nothing else. With any other status the error's line was reported, which names its file, and one more
/// where faults are explained.
pub fn remake<S: Shelf, I: Read, O: Write, E: Write>(
    shelf: &S,
    alloc: Global,
    form: Form<'_>,
    beside: Option<&str>,
    reports: &Reports<'_>,
    explain: bool,
    streams: &mut Streams<I, O, E>,
) -> u8
    requires sound { HasSoundStreams streams.old }
    requires errors { streams.old.errors.failed ≡ false }
    ensures { Remakes ((S.tellings shelf.now).held []) form.entry (option_map (λ s. s.now) beside.entry) (reading_of reports.now)
        (map (λ s. s.now) reports.now.words.items) explain result streams.old streams.new }
{
    let files = reports.words.as_slice();
    match write(shelf, alloc, form, reading_of(reports), files, streams) {
        Ok(written) => {
            tell_cuts(written.cuts.as_slice(), &mut streams.errors);
            found_status(written.found)
        }
        Err(error) => stop_at_file(alloc, beside, files, error, explain, &mut streams.errors),
    }
}

/// Reads the text of a word (`-` is standard input), writes what is made of these reports with it, and returns the exit status,
/// as `remake` does. Where the text can't be read, or is too long, the status is that of the error, whose line was reported, with
/// one more where faults are explained; nothing was written, and no report was read.
pub fn remake_with<S: Shelf, I: Read, O: Write, E: Write>(
    shelf: &S,
    alloc: Global,
    beside: Beside<'_>,
    word: &str,
    reports: &Reports<'_>,
    explain: bool,
    streams: &mut Streams<I, O, E>,
) -> u8
    requires sound { HasSoundStreams streams.old }
    requires errors { streams.old.errors.failed ≡ false }
    ensures { RemakesWith ((S.tellings shelf.now).held []) beside.entry word.now (reading_of reports.now)
        (map (λ s. s.now) reports.now.words.items) explain result streams.old streams.new }
{
    match read_text(shelf, alloc, word, &mut streams.input) {
        Ok(text) => {
            let form = form_beside(beside, text.as_slice());
            remake(shelf, alloc, form, Some(word), reports, explain, streams)
        }
        Err(fault) => {
            let error = ReportsError::Unread { text: 1, fault };
            stop_at_file(alloc, None, &[word], error, explain, &mut streams.errors)
        }
    }
}
