//! `census identify`: what patterns are, reported with the names of codes.
ghost use Rattle.std.specs.Prelude.{◌≡◌, ◌≤◌, [], false, map, option_map, MatchResult, Ok, OnOk};
ghost use Rattle.census_identify.specs.Identifies.{Identifies};
ghost use Rattle.census_facts.specs.NameLines.{names_in};
ghost use Rattle.census_command.specs.Identifying.{HasNoNames, LacksNames, ReadsNames, TellsPatterns, form_told};
ghost use Rattle.census_command.specs.Streams.{HasSoundStreams};

use census_crew::Gate;
use census_errors::stop_at_file;
use census_facts::{Form, Names, read_names};
use census_folders::Shelf;
use census_identify::{HORIZON_LIMIT, Inquiry, Onlooker, identify};
use census_reports::{ReportsError, read_text};
use life_orbit::BOUND_LIMIT;
use std::alloc::Global;
use std::io::{Read, Write};
use watched::Streams;

/// The form of an answer.
pub fn form_told(json: bool) -> Form
    ensures { result ≡ form_told json }
{
    if json { Form::Json } else { Form::Lines }
}

// The names of a text.
fn names_in(alloc: Global, text: &[u8]) -> Result<Names, ReportsError>
    ensures { MatchResult result
        (λ names. names_in text.now ≡ Ok names)
        (λ error. HasNoNames error text.now) }
{
    match read_names(alloc, text)? {
        Ok(names) => Ok(names),
        Err(line) => Err(ReportsError::Names { line }),
    }
}

// The names of the text of a word.
fn names_of<S: Shelf, I: Read, O: Write, E: Write>(
    shelf: &S,
    alloc: Global,
    word: &str,
    streams: &mut Streams<I, O, E>,
) -> Result<Names, ReportsError>
    requires { HasSoundStreams streams.old }
    ensures names { MatchResult result
        (λ names. ReadsNames ((S.tellings shelf.now).held []) word.now names streams.old streams.new)
        (λ error. LacksNames error ((S.tellings shelf.now).held []) word.now streams.old streams.new) }
    ensures sound { OnOk result (HasSoundStreams streams.new) }
    ensures quiet { streams.new.errors ≡ streams.old.errors }
{
    match read_text(shelf, alloc, word, &mut streams.input) {
        Ok(text) => names_in(alloc, text.as_slice()),
        Err(fault) => Err(ReportsError::Unread { text: 1, fault }),
    }
}

// Passes on to a gate which generation each file has reached.
#[derive(Drop)]
struct Reaching<'a, G> {
    gate: &'a G,
    /// The last generation that may be reached.
    last: u32,
}

impl<'a, G: Gate> Onlooker for Reaching<'a, G> {
    fn reached(&self, word: &str, generation: u32) {
        self.gate.reached(word.as_bytes(), generation, self.last);
    }
}

// Reports what the patterns of these files are, with these names.
fn tell_named<S: Shelf, I: Read, O: Write, E: Write, G: Gate>(
    shelf: &S,
    alloc: Global,
    gate: &G,
    inquiry: Inquiry,
    names: &Names,
    files: &[&str],
    streams: &mut Streams<I, O, E>,
) -> u8
    requires bound { 1 ≤ inquiry.bound × inquiry.bound ≤ BOUND_LIMIT }
    requires horizon { 1 ≤ inquiry.horizon × inquiry.horizon ≤ HORIZON_LIMIT }
    requires sound { HasSoundStreams streams.old }
    requires errors { streams.old.errors.failed ≡ false }
    ensures { Identifies ((S.tellings shelf.now).held []) inquiry names.now (map (λ s. s.now) files.now) result
        streams.old streams.new }
{
    let reaching = Reaching {
        gate,
        last: 3 * inquiry.bound,
    };
    identify(shelf, alloc, &reaching, inquiry, names, files, streams)
}

/// Reports what the patterns of these files are, as `identify` does, with the names in the text of a word, which is read first;
/// `-` is standard input, and without a word there are no names. Where that text can't be read, is too long or has a fault, the
/// status is that of the error, whose line was reported, with one more where faults are explained; nothing was written, and no
/// pattern was read. The gate is told which generation each file has reached, of three times the bound.
pub fn tell_patterns<S: Shelf, I: Read, O: Write, E: Write, G: Gate>(
    shelf: &S,
    alloc: Global,
    gate: &G,
    inquiry: Inquiry,
    word: Option<&str>,
    files: &[&str],
    explain: bool,
    streams: &mut Streams<I, O, E>,
) -> u8
    requires bound { 1 ≤ inquiry.bound × inquiry.bound ≤ BOUND_LIMIT }
    requires horizon { 1 ≤ inquiry.horizon × inquiry.horizon ≤ HORIZON_LIMIT }
    requires sound { HasSoundStreams streams.old }
    requires errors { streams.old.errors.failed ≡ false }
    ensures { TellsPatterns ((S.tellings shelf.now).held []) inquiry (option_map (λ s. s.now) word.entry)
        (map (λ s. s.now) files.now) explain result streams.old streams.new }
{
    let Some(word) = word else {
        let names = Names::none(alloc);
        return tell_named(shelf, alloc, gate, inquiry, &names, files, streams);
    };
    match names_of(shelf, alloc, word, streams) {
        Ok(names) => tell_named(shelf, alloc, gate, inquiry, &names, files, streams),
        Err(error) => {
            let errors = &mut streams.errors;
            stop_at_file(alloc, Some(word), &[word], error, explain, errors)
        }
    }
}
