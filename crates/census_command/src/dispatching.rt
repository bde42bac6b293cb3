//! What the program does with its words.
ghost use Rattle.std.specs.Prelude.{◌≡◌, ◌⊎◌, ◌||◌, false, map, IfErr, IfOk, MatchResult, OnOk};
ghost use Rattle.census_cli.specs.declared.request.Request.TheVariants as request;
ghost use Rattle.census_errors.specs.Messages.{error_line, status_of};
ghost use Rattle.census_faults.specs.Explanations.{IsExplanation};
ghost use Rattle.census_errors.specs.Sources.{StopsAtFirstLoss, source_of};
ghost use Rattle.census_command.specs.Gates.{HearsEnd, HearsOutcome, HearsRequest};
ghost use Rattle.census_command.specs.Outcomes.{Answers, Concludes, Ends, Outcome};
ghost use Rattle.census_cli.specs.Holding.{IsLawful};
ghost use Rattle.census_command.specs.Requests.{Does, Fails};
ghost use Rattle.watched.specs.Streams.{PutsBytes};
ghost use Rattle.census_command.specs.Streams.{HasSoundStreams, TellsBeside};

use crate::advancing::advance;
use crate::collections::goes_on;
use crate::drawing::draw;
use crate::forms::{Beside, names_beside, options_asked, table_form};
use crate::identifying::{form_told, tell_patterns};
use crate::keeping::keep_going;
use crate::remaking::{remake, remake_with};
use crate::running::run_command;
use crate::starting::tell_starts;
use census_cli::{Census, Request, WordsFault, read_words};
use census_crew::Gate;
use census_errors::{CommandError, Place, Stopped, file_place, saying_of, stop_saying};
use census_faults::Lines;
use census_folders::Shelf;
use census_identify::Inquiry;
use census_reports::Form;
use std::alloc::Global;
use std::io::{Read, Write};
use std::sync::Wait;
use std::thread::Threads;
use watched::{Output, Streams, put_all};

// Writes the report of a census that ends at the first thing that can't be read. Returns the lines that are said beside the
// report, where faults are explained.
fn report_census<S: Shelf, I: Read, O: Write, E: Write, G: Gate, R: Threads + Wait + Sync>(
    rt: &R,
    shelf: &S,
    alloc: Global,
    census: &Census<'_>,
    explain: bool,
    quiet: bool,
    gate: &mut G,
    streams: &mut Streams<I, O, E>,
) -> Result<Lines, Stopped>
    requires lawful { IsLawful (request.Census census.now) }
    requires stops { StopsAtFirstLoss (source_of census.now.collections) }
    requires sound { HasSoundStreams streams.old }
    ensures done { OnOk result (Does (S.tellings shelf.now) (request.Census census.now) streams.old streams.new) }
    ensures lines { IfOk result (IsExplanation explain) }
    ensures sound { OnOk result (HasSoundStreams streams.new) }
    ensures fails { IfErr result
        (λ stopped. Fails stopped.error (S.tellings shelf.now) (request.Census census.now) streams.old streams.new) }
    ensures gate { MatchResult result
        (λ _. HearsRequest (S.tellings shelf.now) (request.Census census.now) quiet
        streams.old.input streams.new.input (G.heard gate.old) (G.heard gate.new))
        (λ _. (G.heard gate.new ≡ G.heard gate.old)
        ⊎ HearsRequest (S.tellings shelf.now) (request.Census census.now) quiet
        streams.old.input streams.new.input (G.heard gate.old) (G.heard gate.new)) }
    ensures quiet { streams.new.errors ≡ streams.old.errors }
{
    match run_command(rt, shelf, alloc, census, explain, quiet, gate, streams) {
        Ok(lines) => Ok(lines),
        Err(stopped) => Err(Stopped::from(stopped)),
    }
}

// Writes a later generation of the pattern of a file, or of that on standard input. Nothing is said beside it.
fn advance_asked<S: Shelf, I: Read, O: Write, E: Write>(
    shelf: &S,
    alloc: Global,
    generations: u32,
    cells: Option<u32>,
    file: Option<&str>,
    streams: &mut Streams<I, O, E>,
) -> Result<Lines, Stopped>
    requires lawful { IsLawful (request.Advance generations cells file) }
    requires sound { HasSoundStreams streams.old }
    ensures done { OnOk result
        (Does (S.tellings shelf.now) (request.Advance generations cells file.entry) streams.old streams.new) }
    ensures sound { OnOk result (HasSoundStreams streams.new) }
    ensures fails { IfErr result
        (λ stopped. Fails stopped.error (S.tellings shelf.now) (request.Advance generations cells file.entry)
        streams.old streams.new) }
    ensures quiet { streams.new.errors ≡ streams.old.errors }
{
    match advance(shelf, alloc, generations, cells, file, streams) {
        Ok(()) => Ok(Lines::none(alloc)),
        Err(error) => Err(Stopped {
            error: CommandError::Advance(error),
            place: file_place(alloc, error),
        }),
    }
}

// Writes what a code draws under a rule. Nothing is said beside it.
fn draw_asked<S: Shelf, I: Read, O: Write, E: Write>(
    shelf: &S,
    alloc: Global,
    code: &str,
    rule: &str,
    streams: &mut Streams<I, O, E>,
) -> Result<Lines, Stopped>
    requires sound { HasSoundStreams streams.old }
    ensures done { OnOk result
        (Does (S.tellings shelf.now) (request.Draw code.entry rule.entry) streams.old streams.new) }
    ensures sound { OnOk result (HasSoundStreams streams.new) }
    ensures fails { IfErr result
        (λ stopped. Fails stopped.error (S.tellings shelf.now) (request.Draw code.entry rule.entry)
        streams.old streams.new) }
    ensures quiet { streams.new.errors ≡ streams.old.errors }
{
    match draw(alloc, code.as_bytes(), rule.as_bytes(), streams) {
        Ok(()) => Ok(Lines::none(alloc)),
        Err(error) => Err(Stopped {
            error: CommandError::Draw(error),
            place: Place::nowhere(),
        }),
    }
}

// Whether faults are explained: where that is asked for, or at a terminal.
fn explains(asked: bool, at_terminal: bool) -> bool
    ensures { result ≡ asked || at_terminal }
{
    asked || at_terminal
}

// Reports lines on standard error, where faults are explained.
fn tell_if<E: Write>(explain: bool, lines: &Lines, errors: &mut Output<E>)
    requires { errors.old.stream.failed ≡ false }
    ensures { TellsBeside explain errors.old.stream errors.new.stream }
{
    if explain {
        errors.tell(lines.as_slice());
    }
}

// Reports what is said beside what was done, where faults are explained, or the error that ended it. Returns the exit status.
fn conclude<E: Write>(
    request: &Request<'_>,
    ended: Result<Lines, Stopped>,
    explain: bool,
    errors: &mut Output<E>,
) -> u8
    requires { errors.old.stream.failed ≡ false }
    ensures { Concludes ended explain result errors.old.stream errors.new.stream }
{
    match ended {
        Ok(lines) => {
            tell_if(explain, &lines, errors);
            0
        }
        Err(stopped) => {
            let saying = saying_of(request, stopped.error).at(&stopped.place);
            stop_saying(stopped.error, saying, explain, errors)
        }
    }
}

/// Reports an error by its line, and returns its exit status. A line that can't be written changes nothing.
pub fn stop<E: Write>(error: CommandError, errors: &mut Output<E>) -> u8
    requires { errors.old.stream.failed ≡ false }
    ensures status { result ≡ status_of error }
    ensures line { PutsBytes (error_line error) errors.old.stream errors.new.stream }
{
    errors.tell(error.line().as_str().as_bytes());
    error.status()
}

/// Writes why words ask for nothing that can be done, and returns the exit status. Help is written by its own text to standard
/// output, and a refusal by its own text to standard error.
pub fn answer<I: Read, O: Write, E: Write>(fault: &WordsFault, streams: &mut Streams<I, O, E>) -> u8
    requires streams { HasSoundStreams streams.old }
    requires errors { streams.old.errors.failed ≡ false }
    ensures { Answers fault.now result streams.old streams.new }
{
    match fault {
        WordsFault::Help(text) => match put_all(&mut streams.output, text.as_bytes()) {
            Ok(()) => 0,
            Err(_) => stop(CommandError::Write, &mut streams.errors),
        },
        WordsFault::Refused(text) => {
            streams.errors.tell(text.as_bytes());
            2
        }
        WordsFault::Memory => stop(CommandError::Memory, &mut streams.errors),
    }
}

// Does what is asked for, and returns the exit status.
fn carry_out<S: Shelf, I: Read, O: Write, E: Write, G: Gate, R: Threads + Wait + Sync>(
    rt: &R,
    shelf: &S,
    alloc: Global,
    request: &Request<'_>,
    explain: bool,
    quiet: bool,
    gate: &mut G,
    streams: &mut Streams<I, O, E>,
) -> u8
    requires lawful { IsLawful request.now }
    requires sound { HasSoundStreams streams.old }
    requires errors { streams.old.errors.failed ≡ false }
    ensures ends { Ends (S.tellings shelf.now) request.now explain result streams.old streams.new }
    ensures gate { HearsEnd (S.tellings shelf.now) request.now quiet result
        streams.old.input streams.new.input (G.heard gate.old) (G.heard gate.new) }
{
    match request {
        Request::Census(census) => {
            if goes_on(&census.collections) {
                return keep_going(rt, shelf, alloc, census, explain, quiet, gate, streams);
            }
            let ended = report_census(rt, shelf, alloc, census, explain, quiet, gate, streams);
            conclude(request, ended, explain, &mut streams.errors)
        }
        Request::Identify {
            bound,
            cells,
            near,
            horizon,
            json,
            names,
            files,
        } => {
            let inquiry = Inquiry {
                bound: *bound,
                cells: *cells,
                near: *near,
                horizon: *horizon,
                form: form_told(*json),
            };
            let files = files.as_slice();
            tell_patterns(
                shelf, alloc, &*gate, inquiry, *names, files, explain, streams,
            )
        }
        Request::Advance {
            generations,
            cells,
            file,
        } => {
            let ended = advance_asked(shelf, alloc, *generations, *cells, *file, streams);
            conclude(request, ended, explain, &mut streams.errors)
        }
        Request::Draw { code, rule } => {
            let ended = draw_asked(shelf, alloc, *code, *rule, streams);
            conclude(request, ended, explain, &mut streams.errors)
        }
        Request::Merge { reports } => {
            remake(shelf, alloc, Form::Merged, None, reports, explain, streams)
        },
        Request::Table {
            subject,
            format,
            names: None,
            reports,
        } => {
            let form = table_form(*subject, *format);
            remake(shelf, alloc, form, None, reports, explain, streams)
        }
        Request::Table {
            subject,
            format,
            names: Some(names),
            reports,
        } => {
            let beside = names_beside(*subject, *format);
            remake_with(shelf, alloc, beside, *names, reports, explain, streams)
        }
        Request::Page {
            page,
            names: None,
            reports,
        } => {
            let form = Form::Page {
                options: options_asked(page),
                names: None,
            };
            remake(shelf, alloc, form, None, reports, explain, streams)
        }
        Request::Page {
            page,
            names: Some(names),
            reports,
        } => {
            let beside = Beside::NamesOnPage {
                options: options_asked(page),
            };
            remake_with(shelf, alloc, beside, *names, reports, explain, streams)
        }
        Request::Same { json, reports } => {
            let form = Form::Same { json: *json };
            remake(shelf, alloc, form, None, reports, explain, streams)
        }
        Request::Starts { json, collections } => {
            tell_starts(shelf, alloc, *json, collections, explain, streams)
        }
        Request::Verify { claims, reports } => {
            let beside = Beside::Claims;
            remake_with(shelf, alloc, beside, *claims, reports, explain, streams)
        }
    }
}

/// Does what the program `census` does with its words, which are those after its name, and returns its exit status.
///
/// The words mean what clap's matches for them say. With `run` and `objects` each worker passes the gate with a ticket before it
/// works. Folders and files are read from the shelf, which may say what is on it; with `--recursive` the folders below those of
/// the words are read too.
///
/// - 0: what was asked for was done. With `run` and `objects` the report of the folders, or without any of the bundle on standard
///   input, was written: what their patterns become, or the objects in them; with `advance N` the input is an RLE text, and the
///   text of generation N was written, and with `--cells` no generation up to N has more cells; with `draw CODE [--rule R]` the
///   text of the code's shape under the rule; with `merge` one report of the reports that were read, with `table` a table of
///   them, with `page` a page, with `same` those of their patterns that are one object, or with `--starts` those of folders or of
///   a bundle that are the same at the start, of which there are none, and with `verify` what does not agree between claims and
///   them, which is nothing. With `--names` the file of names is read before the reports. Or help was asked for and written.
/// - 1: the collections, the pattern, the rule or the code is refused, and nothing was written.
/// - 2: clap refuses the words, and not because memory was refused; nothing was read or written.
/// - 3: out of memory; nothing was written, or with `run` and `objects` a prefix of the report, or with `table`, `page`, `same`
///   and `verify` a prefix of what they write.
/// - 5: what was asked for was done, and what was looked for was found: with `same` patterns that are one object, or the same at
///   the start, and with `verify` what does not agree.
/// - 4: standard input or standard output has failed, or a folder could not be listed, or a file of it could not be read. What
///   was written is a prefix of what was asked for, or nothing; after a failed read it is nothing. With `--keep-going` it is the
///   whole report of what could be read, after a line on standard error for each folder, file or name that was lost.
///
/// With status 0 or 5, nothing is written to standard error but, with `--cut`, a line for each report that was cut. Otherwise the
/// error's one line is written there, or for status 2 clap's own text: whole where standard error does not fail, else a prefix of
/// it. With `--explain`, and at a terminal (standard error is one where `at_terminal` is set), one more line follows the error's.
/// It says where the fault is, what is wrong and what would be right. After a report there is such a line for each pattern that
/// it reports as `bad`, then one for each pattern whose text may hold the next pattern, and one with how many collections are
/// empty and how many names were passed over that look like those of patterns.
///
/// The gate is told how many patterns a run has before it, and after it that it has ended, whatever ends it; with `--no-progress`
/// it is told neither. With `identify` it is told which generation each file has reached.
pub fn dispatch<S: Shelf, I: Read, O: Write, E: Write, G: Gate, R: Threads + Wait + Sync>(
    rt: &R,
    shelf: &S,
    alloc: Global,
    words: &[&str],
    gate: &mut G,
    at_terminal: bool,
    streams: &mut Streams<I, O, E>,
) -> u8
    requires streams { HasSoundStreams streams.old }
    requires errors { streams.old.errors.failed ≡ false }
    ensures outcome { Outcome (S.tellings shelf.now)
        (map (λ s. s.now) words.now) at_terminal result streams.old streams.new }
    ensures gate { HearsOutcome (S.tellings shelf.now)
        (map (λ s. s.now) words.now) result
        streams.old.input streams.new.input (G.heard gate.old) (G.heard gate.new) }
{
    let asked = match read_words(alloc, &*words) {
        Ok(asked) => asked,
        Err(fault) => return answer(&fault, streams),
    };
    let explain = explains(asked.explain, at_terminal);
    carry_out(
        rt,
        shelf,
        alloc,
        &asked.request,
        explain,
        asked.quiet,
        gate,
        streams,
    )
}
