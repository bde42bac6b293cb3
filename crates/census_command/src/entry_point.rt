//! The entry point: what the program does with the arguments that the system gives it.
ghost use Rattle.std.specs.Prelude.{◌≡◌, drop, false, map, string_bytes, IfOk, MatchResult};
ghost use Rattle.std.specs.IoError.{error_kind};
ghost use Rattle.std.specs.Process.{exit_status};
ghost use Rattle.std.specs.Vec.Iter.{into_iter_items};
ghost use Rattle.census_command.specs.Gates.{HearsOutcome};
ghost use Rattle.census_command.specs.Outcomes.{Outcome, StopsUnread};
ghost use Rattle.census_command.specs.Streams.{HasSoundStreams};

use crate::dispatching::{dispatch, stop};
use census_crew::Gate;
use census_errors::CommandError;
use census_folders::{Shelf, borrowed_words};
use std::alloc::{AllocError, Global};
use std::env::Args;
use std::io;
use std::io::{Read, Write};
use std::process::ExitCode;
use std::sync::Wait;
use std::thread::Threads;
use watched::Streams;

// All arguments but the first, which is the program's name.
fn own_words(alloc: Global, args: Args) -> Result<Vec<String>, AllocError>
    ensures { IfOk result (λ words. words.items ≡ drop 1 (into_iter_items args)) }
{
    let mut rest = args;
    let _ = rest.next();
    let mut words = Vec::new(alloc);
    while let Some(word) = rest.next() {
        words.push(word)?;
    }
    Ok(words)
}

// Does what the arguments ask for, and returns the exit status.
fn dispatch_arguments<S: Shelf, I: Read, O: Write, E: Write, G: Gate, R: Threads + Wait + Sync>(
    rt: &R,
    shelf: &S,
    alloc: Global,
    args: Args,
    gate: &mut G,
    at_terminal: bool,
    streams: &mut Streams<I, O, E>,
) -> u8
    requires streams { HasSoundStreams streams.old }
    requires errors { streams.old.errors.failed ≡ false }
    ensures outcome { Outcome (S.tellings shelf.now)
        (map (λ word. string_bytes word) (drop 1 (into_iter_items args))) at_terminal result
        streams.old streams.new }
    ensures gate { HearsOutcome (S.tellings shelf.now)
        (map (λ word. string_bytes word) (drop 1 (into_iter_items args))) result
        streams.old.input streams.new.input (G.heard gate.old) (G.heard gate.new) }
{
    let Ok(own) = own_words(alloc, args) else {
        return stop(CommandError::Memory, &mut streams.errors);
    };
    let Ok(words) = borrowed_words(alloc, own.as_slice()) else {
        return stop(CommandError::Memory, &mut streams.errors);
    };
    dispatch(
        rt,
        shelf,
        alloc,
        words.as_slice(),
        gate,
        at_terminal,
        streams,
    )
}

/// The whole program `census` over any shelf, any gate and any streams: `dispatch` on all arguments but the first, which is the
/// program's name, and its status as the exit status. Standard error is a terminal where `at_terminal` is set.
///
/// Where the system gives no arguments, nothing is read or written, and the error's line is reported: `out of memory` with status
/// 3 where memory is refused, else `bad command line` with status 2, for an argument that is not text.
pub fn program<S: Shelf, I: Read, O: Write, E: Write, G: Gate, R: Threads + Wait + Sync>(
    rt: &R,
    shelf: &S,
    alloc: Global,
    args: io::Result<Args>,
    gate: &mut G,
    at_terminal: bool,
    streams: &mut Streams<I, O, E>,
) -> ExitCode
    requires streams { HasSoundStreams streams.old }
    requires errors { streams.old.errors.failed ≡ false }
    ensures outcome { MatchResult args
        (λ args. Outcome (S.tellings shelf.now)
        (map (λ word. string_bytes word) (drop 1 (into_iter_items args)))
        at_terminal (exit_status result) streams.old streams.new)
        (λ error. StopsUnread (error_kind error) (exit_status result)
        streams.old streams.new) }
    ensures gate { MatchResult args
        (λ args. HearsOutcome (S.tellings shelf.now)
        (map (λ word. string_bytes word) (drop 1 (into_iter_items args)))
        (exit_status result) streams.old.input streams.new.input (G.heard gate.old) (G.heard gate.new))
        (λ _. G.heard gate.new ≡ G.heard gate.old) }
{
    match args {
        Ok(args) => {
            let status = dispatch_arguments(rt, shelf, alloc, args, gate, at_terminal, streams);
            ExitCode::from(status)
        }
        Err(error) => ExitCode::from(stop(CommandError::from(error), &mut streams.errors)),
    }
}
