//! Calls of the program.

use census_command::dispatch;
use census_crew::{Gate, OpenGate};
use std::alloc::Global;
use std::io::{Read, Write};
use std::rt::Files;
use std::sync::Wait;
use std::thread::Threads;
use watched::Streams;

// The exit status of the program with these arguments, standard input, standard output and standard error, and the last two as
// they are afterwards.
pub(crate) fn called<
    I: Read + Drop,
    O: Write + Drop,
    E: Write + Drop,
    R: Threads + Wait + Sync + Files + Alloc + Clone + Drop,
>(rt: &R, alloc: Global, words: &[&str], ends: (I, O, E)) -> (u8, O, E) {
    called_through(rt, alloc, words, &mut OpenGate, ends, false)
}

// The exit status and the last two streams of a call through a gate, with or without a terminal as standard error.
pub(crate) fn called_through<
    G: Gate,
    I: Read + Drop,
    O: Write + Drop,
    E: Write + Drop,
    R: Threads + Wait + Sync + Files + Alloc + Clone + Drop,
>(
    rt: &R,
    alloc: Global,
    words: &[&str],
    gate: &mut G,
    ends: (I, O, E),
    is_terminal: bool,
) -> (u8, O, E) {
    let (input, output, errors) = ends;
    let mut streams = Streams::new(input, output, errors);
    let status = dispatch(rt, rt, alloc, words, gate, is_terminal, &mut streams);
    let (_, output, errors) = streams.into_inner();
    (status, output, errors)
}
