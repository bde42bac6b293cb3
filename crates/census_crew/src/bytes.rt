//! The run over a bundle text.
ghost use Rattle.std.specs.Prelude.{◌≡◌, ◌↔◌, ◌≤◌, true, false, Err};
ghost use Rattle.life_answer.specs.Questions.{IsAnswered};
ghost use Rattle.census_crew.specs.Bytes.{FitsBytesFault, HearsBytes, ReadsBundle, RunsBytes};
ghost use Rattle.census_faults.specs.declared.run_fault.BytesFault.{BytesFault};
ghost use Rattle.census_bundle.specs.Sizes.{worker_limit};

use crate::gate::Gate;
use crate::running::run;
use crate::tally::Tally;
use census_bundle::{Bundle, BundleFault, INPUT_LIMIT, read_bundle};
use census_faults::{BytesFault, RunFault};
use life_answer::Question;
use std::alloc::Global;
use std::io::{Read, Write};
use std::sync::Wait;
use std::thread::Threads;
use watched::{Input, ReadFault, Streams, read_all};

// Reads a bundle up to the reader's end.
fn read_input<R: Read>(alloc: Global, reader: &mut Input<R>) -> Result<Bundle, BytesFault>
    ensures failed { (result ≡ Err BytesFault.Read) ↔ (reader.new.stream.failed ≡ true) }
    ensures read { ReadsBundle reader.old.stream.unread reader.new.stream.unread result }
{
    let text = match read_all(alloc, reader, INPUT_LIMIT) {
        Ok(text) => text,
        Err(ReadFault::Read) => return Err(BytesFault::Read),
        Err(ReadFault::TooLong) => return Err(BytesFault::TooLong),
        Err(ReadFault::Memory) => return Err(BytesFault::Memory),
    };
    match read_bundle(alloc, &text) {
        Ok(bundle) => Ok(bundle),
        Err(BundleFault::Memory) => Err(BytesFault::Memory),
        Err(fault) => Err(BytesFault::Bundle(fault)),
    }
}

/// Reads a bundle up to the end of standard input and writes the report that answers the question for its patterns, by 1 to 16
/// workers, as `run` does, which reports the run to the gate. If no bundle was read, the gate hears nothing. A bound is 1 to
/// 1,000,000 generations. Neither standard input nor standard output has failed before, and nothing is written to standard
/// error. `Ok` says that everything was written. The input is read to its end before the first byte is written. After `Read`,
/// `TooLong` and `Bundle` nothing was written; after `Memory` and `Write` nothing or a prefix of a report of the bundle. `Read`
/// is returned if and only if standard input has failed, and `Write` if and only if standard output has.
pub fn run_bytes<I: Read, O: Write, E: Write, G: Gate, R: Threads + Wait + Sync>(
    rt: &R,
    alloc: Global,
    question: Question,
    workers: u32,
    gate: &mut G,
    streams: &mut Streams<I, O, E>,
) -> Result<Tally, BytesFault>
    requires question { IsAnswered question }
    requires workers { (1 ≤ workers) × (workers ≤ worker_limit) }
    requires input { streams.old.input.failed ≡ false }
    requires output { streams.old.output.failed ≡ false }
    ensures read { (result ≡ Err BytesFault.Read) ↔ (streams.new.input.failed ≡ true) }
    ensures failed { FitsBytesFault result streams.new.output.failed }
    ensures report { RunsBytes question streams.old streams.new result }
    ensures gate { HearsBytes result streams.old streams.new (G.heard gate.old) (G.heard gate.new) }
    ensures quiet { streams.new.errors ≡ streams.old.errors }
{
    let bundle = read_input(alloc, &mut streams.input)?;
    match run(
        rt,
        alloc,
        &bundle,
        question,
        workers,
        gate,
        &mut streams.output,
    ) {
        Ok(tally) => Ok(tally),
        Err(RunFault::Memory { .. }) => Err(BytesFault::Memory),
        Err(RunFault::Write) => Err(BytesFault::Write),
    }
}
