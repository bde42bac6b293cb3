//! Errors of what is made of reports, each reported with the name of its file.
ghost use Rattle.std.specs.Prelude.{◌≡◌, map, option_map};
ghost use Rattle.watched.specs.Streams.{PutsMoreBytes};
ghost use Rattle.census_errors.specs.Explained.{AreWordsOf, TellsFault, TellsWords, TellsWrong};
ghost use Rattle.census_errors.specs.Files.{file_at, file_in, file_named};
ghost use Rattle.census_reports.specs.Errors.{status_of};

use crate::files::file_of;
use crate::messages::message_at;
use crate::saying::{Saying, say_if, tell_bytes, tell_shown};
use census_bundle::AddFault;
use census_faults::{Fault, FileKind, Message, Spot, message, sentence};
use census_folders::{ShelfFault, Unread};
use census_reports::{ReportsError, TextKind};
use std::alloc::Global;
use std::io::Write;
use watched::Output;

// The file of the word of this number, from 1.
fn file_at<'a>(words: &[&'a str], number: usize) -> Option<&'a str>
    ensures { option_map (λ s. s.now) result ≡ file_at (map (λ s. s.now) words.now) number }
{
    file_of(words.get(number.saturating_sub(1)).copied())
}

// The file that an error is about: that of the word of a text that is read before the reports, or of a report.
fn file_in<'a>(beside: Option<&'a str>, words: &[&'a str], error: ReportsError) -> Option<&'a str>
    ensures { option_map (λ s. s.now) result
        ≡ file_in (option_map (λ s. s.now) beside.entry) (map (λ s. s.now) words.now) error }
{
    match error {
        ReportsError::Claims { .. } | ReportsError::Names { .. } => file_of(beside),
        ReportsError::Fault { text, .. } => file_at(words, text),
        ReportsError::Unread { text, fault } => match fault {
            ShelfFault::Memory => None,
            ShelfFault::TooLong | ShelfFault::Unread(_) => file_at(words, text),
        },
        ReportsError::TooMany { .. } | ReportsError::Memory | ReportsError::Write => None,
    }
}

// What is wrong, in few words.
fn words_of(error: ReportsError) -> Message
    ensures { AreWordsOf error result.bytes }
{
    match error {
        ReportsError::Fault { line, .. } => message_at("report fault at line ", line),
        ReportsError::Claims { line, .. } => message_at("claim fault at line ", line),
        ReportsError::Names { line } => message_at("names fault at line ", line),
        ReportsError::TooMany { report } => message_at("too many collections at report ", report),
        ReportsError::Unread { fault, .. } => match fault {
            ShelfFault::TooLong => message("input too long"),
            ShelfFault::Memory => message("out of memory"),
            ShelfFault::Unread(_) => message("read failed"),
        },
        ReportsError::Memory => message("out of memory"),
        ReportsError::Write => message("write failed"),
    }
}

// The sentence for a text that is not a report.
fn kind_sentence(kind: TextKind) -> &'static str {
    match kind {
        TextKind::Empty => "the text is empty: a report has at least its last line, `end`",
        TextKind::Returns =>
            "the lines end in CR LF: those of a report must end in LF alone, as `census run` and `census objects` write them",
        TextKind::Gzip => sentence(Fault::File(FileKind::Gzip)),
        TextKind::Bundle =>
            "the text is a bundle and not a report: `census run` and `census objects` write the report of a bundle",
        TextKind::Pattern =>
            "the text is an RLE text and not a report: `census identify` tells what its pattern is, and `census run FOLDER` writes the report of a folder of such",
        TextKind::Other => sentence(Fault::Report),
    }
}

// The sentence for an error, and the line of its fault.
fn sentence_of(error: ReportsError) -> (&'static str, Spot) {
    match error {
        ReportsError::Fault { line, kind, .. } => (kind_sentence(kind), Spot::Line(line as u64)),
        ReportsError::Claims {
            line,
            is_named: true,
        } => (
            "claims have no column to compare: beside `name` there must be one of `status`, `rule`, `population`, `onset`, `period`, `dx`, `dy`, `code` (or `apgcode`), `objects` and `engines`",
            Spot::Line(line as u64),
        ),
        ReportsError::Claims { line, .. } => (sentence(Fault::Claims), Spot::Line(line as u64)),
        ReportsError::Names { line } => (sentence(Fault::Names), Spot::Line(line as u64)),
        ReportsError::TooMany { .. } => {
            (sentence(Fault::Folder(AddFault::TooMany)), Spot::Nowhere)
        }
        ReportsError::Unread {
            fault: ShelfFault::TooLong,
            ..
        } => (sentence(Fault::TooLong), Spot::Nowhere),
        ReportsError::Unread {
            fault: ShelfFault::Unread(_),
            ..
        } => (
            "reading failed: a file that is named must be there and open to be read, and must be no folder",
            Spot::Nowhere,
        ),
        ReportsError::Unread { .. } | ReportsError::Memory => {
            (sentence(Fault::Memory), Spot::Nowhere)
        }
        ReportsError::Write => (sentence(Fault::Write), Spot::Nowhere),
    }
}

// Writes the name of a file as it is shown, and `: `; nothing where there is none.
fn tell_file<E: Write>(file: Option<&str>, errors: &mut Output<E>)
    ensures { PutsMoreBytes (file_named (option_map (λ s. s.now) file.entry)) errors.old.stream errors.new.stream }
{
    if let Some(name) = file {
        tell_bytes(name.as_bytes(), errors);
        errors.tell(b": ");
    }
}

// Writes what the system says of a file that can't be read, where there is memory for it.
fn tell_why<E: Write>(alloc: Global, why: Unread, errors: &mut Output<E>)
    ensures { TellsWords errors.old.stream errors.new.stream }
{
    match why.word(alloc) {
        Some(word) => tell_shown(word.as_slice(), errors),
        None => tell_shown(b"read failed", errors),
    }
}

// Writes what is wrong: what the system says of a file that can't be read, or else a few words.
fn tell_wrong<E: Write>(alloc: Global, error: ReportsError, errors: &mut Output<E>)
    ensures { TellsWrong error errors.old.stream errors.new.stream }
{
    match error {
        ReportsError::Unread {
            fault: ShelfFault::Unread(why),
            ..
        } => tell_why(alloc, why, errors),
        _ => errors.tell(words_of(error).as_str().as_bytes()),
    }
}

// Writes what an error at a file is, and what explains it, where faults are explained.
fn tell_named<E: Write>(
    alloc: Global,
    file: Option<&str>,
    error: ReportsError,
    explain: bool,
    errors: &mut Output<E>,
)
    ensures { TellsFault (option_map (λ s. s.now) file.entry) error explain errors.old.stream errors.new.stream }
{
    errors.tell(b"census: ");
    tell_file(file, errors);
    tell_wrong(alloc, error, errors);
    errors.tell(b"\n");
    let (sentence, spot) = sentence_of(error);
    let name = match file {
        Some(name) => Some(name.as_bytes()),
        None => None,
    };
    let saying = Saying {
        sentence,
        name,
        spot,
        word: None,
    };
    say_if(explain, saying, errors);
}

/// Reports an error of what is made of the reports of words, and returns its exit status: `census: `, the name of the file that it
/// is about and `: ` where it is about one, what is wrong, and a line feed; then, where faults are explained, a line that explains
/// it. `beside` is the word of a text that is read before the reports. A line that can't be written changes nothing.
pub fn stop_at_file<E: Write>(
    alloc: Global,
    beside: Option<&str>,
    words: &[&str],
    error: ReportsError,
    explain: bool,
    errors: &mut Output<E>,
) -> u8
    ensures status { result ≡ status_of error }
    ensures told { TellsFault (file_in (option_map (λ s. s.now) beside.entry) (map (λ s. s.now) words.now) error) error explain
        errors.old.stream errors.new.stream }
{
    tell_named(alloc, file_in(beside, words, error), error, explain, errors);
    error.status()
}
