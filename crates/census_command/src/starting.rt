//! `census same --starts`: the patterns of collections that are the same at the start.
ghost use Rattle.std.specs.Prelude.{◌≡◌, false, IfErr, IfOk, MatchResult, OnErr};
ghost use Rattle.census_errors.specs.Explained.{TellsOf};
ghost use Rattle.census_errors.specs.Messages.{run_status};
ghost use Rattle.census_errors.specs.Sources.{source_of};
ghost use Rattle.census_errors.specs.declared.error.CommandError.TheVariants as command;
ghost use Rattle.census_command.specs.Starting.{EndsStarts, FindsStarts, IsReadFrom, IsUnread, MissesStarts};
ghost use Rattle.census_command.specs.Streams.{HasSoundStreams};

use crate::collections::folders_of;
use crate::remaking::found_status;
use crate::running::read_input;
use census_bundle::Bundle;
use census_cli::Collections;
use census_compare::write_starts;
use census_errors::{CommandError, RunError, RunStopped, run_saying, stop_saying};
use census_folders::{Shelf, read_source};
use std::alloc::Global;
use std::io::{Read, Write};
use watched::{Input, Output, Streams};

// Reads collections: those of folders, up to the first thing that can't be read, or without a folder those of the bundle that a
// reader has, to its end.
fn read_collections<S: Shelf, I: Read>(
    shelf: &S,
    alloc: Global,
    collections: &Collections<'_>,
    input: &mut Input<I>,
) -> Result<Bundle, RunStopped>
    ensures { MatchResult result
        (λ bundle. IsReadFrom (S.tellings shelf.now) (source_of collections.now) input.old.stream input.new.stream bundle)
        (λ stopped. IsUnread (S.tellings shelf.now) (source_of collections.now) input.old.stream input.new.stream stopped.error) }
{
    if collections.folders.is_empty() {
        return match read_input(alloc, input) {
            Ok(bundle) => Ok(bundle),
            Err(fault) => Err(RunStopped::unnamed(alloc, RunError::from(fault))),
        };
    }
    match read_source(shelf, alloc, folders_of(collections)) {
        Ok(kept) => Ok(kept.bundle),
        Err(fault) => Err(RunStopped::reading(alloc, fault)),
    }
}

// Reads collections, and writes those of their patterns that are the same at the start. Returns whether there are any.
fn find_starts<S: Shelf, I: Read, O: Write, E: Write>(
    shelf: &S,
    alloc: Global,
    json: bool,
    collections: &Collections<'_>,
    streams: &mut Streams<I, O, E>,
) -> Result<bool, RunStopped>
    requires { HasSoundStreams streams.old }
    ensures done { IfOk result (λ found. FindsStarts (S.tellings shelf.now) (source_of collections.now) json found
        streams.old streams.new) }
    ensures fails { IfErr result (λ stopped. MissesStarts (S.tellings shelf.now) (source_of collections.now)
        stopped.error streams.old streams.new) }
    ensures quiet { OnErr result (streams.new.errors ≡ streams.old.errors) }
{
    let bundle = match read_collections(shelf, alloc, collections, &mut streams.input) {
        Ok(bundle) => bundle,
        Err(stopped) => return Err(stopped),
    };
    match write_starts(
        alloc,
        json,
        &bundle,
        &mut streams.output,
        &mut streams.errors,
    ) {
        Ok(found) => Ok(found),
        Err(fault) => Err(RunStopped::running(alloc, &bundle, fault)),
    }
}

// Reports the error that ended it by its line, and by what is said of it where faults are explained. Returns the exit status.
fn stop_at_place<E: Write>(stopped: RunStopped, explain: bool, errors: &mut Output<E>) -> u8
    requires { errors.old.stream.failed ≡ false }
    ensures status { result ≡ run_status stopped.error }
    ensures lines { TellsOf (command.Run stopped.error) explain errors.old.stream errors.new.stream }
{
    let error = CommandError::Run(stopped.error);
    let saying = run_saying(stopped.error).at(&stopped.place);
    stop_saying(error, saying, explain, errors)
}

/// Writes those patterns of collections that are the same at the start, as `write_starts` does, and returns the exit status. The
/// collections are read as those of a census that ends at the first thing that can't be read; all are read before the first byte
/// is written.
///
/// - 0: there are none, and nothing was written.
/// - 5: there are some, and they were written.
/// - 1: the collections are refused, and nothing was written.
/// - 3: memory was refused, and nothing was written, or a prefix.
/// - 4: standard input has failed, or a folder or a file can't be read, and nothing was written; or standard output has failed,
///   and a prefix was.
///
/// With status 0 or 5 a line on standard error says how many patterns were compared, where that is not all. Otherwise the error's
/// line was reported, and one more where faults are explained.
pub fn tell_starts<S: Shelf, I: Read, O: Write, E: Write>(
    shelf: &S,
    alloc: Global,
    json: bool,
    collections: &Collections<'_>,
    explain: bool,
    streams: &mut Streams<I, O, E>,
) -> u8
    requires sound { HasSoundStreams streams.old }
    requires errors { streams.old.errors.failed ≡ false }
    ensures { EndsStarts (S.tellings shelf.now) (source_of collections.now) json explain result streams.old streams.new }
{
    match find_starts(shelf, alloc, json, collections, streams) {
        Ok(found) => found_status(found),
        Err(stopped) => stop_at_place(stopped, explain, &mut streams.errors),
    }
}
