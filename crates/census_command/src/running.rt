//! `census run` and `census objects`: the report of collections.
ghost use Rattle.std.specs.Prelude.{◌≡◌, ◌⊎◌, ◌↔◌, ◌≤◌, true, Err, IfErr, IfOk, MatchResult, OnOk};
ghost use Rattle.census_crew.specs.Bytes.{ReadsBundle};
ghost use Rattle.census_faults.specs.declared.run_fault.BytesFault.{BytesFault};
ghost use Rattle.life_answer.specs.Questions.{IsAnswered};
ghost use Rattle.census_command.specs.Gates.{HearsFolders, HearsInput, HearsRun};
ghost use Rattle.census_command.specs.Runs.{FoldersFail, InputFails, ReportsFolders, ReportsInput, RunFails, Runs};
ghost use Rattle.census_faults.specs.Explanations.{IsExplanation};
ghost use Rattle.census_errors.specs.Sources.{StopsAtFirstLoss, asked_of, source_of};
ghost use Rattle.census_command.specs.Streams.{HasSoundStreams};
ghost use Rattle.census_bundle.specs.Sizes.{worker_limit};

use crate::collections::folders_of;
use crate::reporting::{Origin, report};
use census_bundle::{Bundle, BundleFault, INPUT_LIMIT, read_bundle};
use census_cli::Census;
use census_crew::Gate;
use census_errors::{RunError, RunStopped};
use census_faults::{BytesFault, Lines};
use census_folders::{OnLoss, Shelf, read_source};
use std::alloc::Global;
use std::io::{Read, Write};
use std::sync::Wait;
use std::thread::Threads;
use watched::{Input, ReadFault, Streams, read_all};

/// Reads a bundle up to the reader's end.
pub fn read_input<I: Read>(alloc: Global, input: &mut Input<I>) -> Result<Bundle, BytesFault>
    ensures failed { (result ≡ Err BytesFault.Read) ↔ (input.new.stream.failed ≡ true) }
    ensures read { ReadsBundle input.old.stream.unread input.new.stream.unread
        result }
{
    let text = match read_all(alloc, input, INPUT_LIMIT) {
        Ok(text) => text,
        Err(ReadFault::Read) => return Err(BytesFault::Read),
        Err(ReadFault::TooLong) => return Err(BytesFault::TooLong),
        Err(ReadFault::Memory) => return Err(BytesFault::Memory),
    };
    match read_bundle(alloc, &text) {
        Ok(bundle) => Ok(bundle),
        Err(BundleFault::Memory) => Err(BytesFault::Memory),
        Err(fault) => Err(BytesFault::Bundle(fault)),
    }
}

// Reads a bundle to the reader's end and writes its report.
fn run_input<S: Shelf, I: Read, O: Write, E: Write, G: Gate, R: Threads + Wait + Sync>(
    rt: &R,
    shelf: &S,
    alloc: Global,
    census: &Census<'_>,
    explain: bool,
    quiet: bool,
    gate: &mut G,
    streams: &mut Streams<I, O, E>,
) -> Result<Lines, RunError>
    requires question { IsAnswered census.now.question }
    requires workers { (1 ≤ census.now.workers) × (census.now.workers ≤ worker_limit) }
    requires sound { HasSoundStreams streams.old }
    ensures done { OnOk result (ReportsInput census.now.question streams.old streams.new) }
    ensures lines { IfOk result (IsExplanation explain) }
    ensures sound { OnOk result (HasSoundStreams streams.new) }
    ensures fails { IfErr result (λ e. InputFails e census.now.question streams.old streams.new) }
    ensures gate { MatchResult result
        (λ _. HearsInput quiet streams.old.input streams.new.input (G.heard gate.old) (G.heard gate.new))
        (λ _. (G.heard gate.new ≡ G.heard gate.old)
        ⊎ HearsInput quiet streams.old.input streams.new.input (G.heard gate.old) (G.heard gate.new)) }
    ensures quiet { streams.new.errors ≡ streams.old.errors }
{
    let bundle = read_input(alloc, &mut streams.input)?;
    let lines = report(
        rt,
        shelf,
        alloc,
        &bundle,
        None,
        census.question,
        census.workers,
        explain,
        quiet,
        gate,
        &mut streams.output,
    )?;
    Ok(lines)
}

// Reads the folders of a census up to the first thing that can't be read, and writes their report.
fn run_folders<S: Shelf, I: Read, O: Write, E: Write, G: Gate, R: Threads + Wait + Sync>(
    rt: &R,
    shelf: &S,
    alloc: Global,
    census: &Census<'_>,
    explain: bool,
    quiet: bool,
    gate: &mut G,
    streams: &mut Streams<I, O, E>,
) -> Result<Lines, RunStopped>
    requires question { IsAnswered census.now.question }
    requires workers { (1 ≤ census.now.workers) × (census.now.workers ≤ worker_limit) }
    requires stops { (asked_of census.now.collections).on_loss ≡ OnLoss.Stop }
    requires sound { HasSoundStreams streams.old }
    ensures done { OnOk result
        (ReportsFolders (S.tellings shelf.now) (asked_of census.now.collections)
        census.now.question streams.old streams.new) }
    ensures lines { IfOk result (IsExplanation explain) }
    ensures sound { OnOk result (HasSoundStreams streams.new) }
    ensures fails { IfErr result
        (λ stopped. FoldersFail stopped.error (S.tellings shelf.now) (asked_of census.now.collections)
        census.now.question streams.old streams.new) }
    ensures gate { MatchResult result
        (λ _. HearsFolders (S.tellings shelf.now) (asked_of census.now.collections) quiet
        (G.heard gate.old) (G.heard gate.new))
        (λ _. (G.heard gate.new ≡ G.heard gate.old)
        ⊎ HearsFolders (S.tellings shelf.now) (asked_of census.now.collections) quiet
        (G.heard gate.old) (G.heard gate.new)) }
    ensures quiet { streams.new.errors ≡ streams.old.errors }
{
    let source = folders_of(&census.collections);
    let kept = match read_source(shelf, alloc, source) {
        Ok(kept) => kept,
        Err(fault) => return Err(RunStopped::reading(alloc, fault)),
    };
    match report(
        rt,
        shelf,
        alloc,
        &kept.bundle,
        Some(Origin {
            source,
            lost: kept.lost.as_slice(),
        }),
        census.question,
        census.workers,
        explain,
        quiet,
        gate,
        &mut streams.output,
    ) {
        Ok(lines) => Ok(lines),
        Err(fault) => Err(RunStopped::running(alloc, &kept.bundle, fault)),
    }
}

/// Writes the report of a census that ends at the first thing that can't be read. Each of its workers passes the gate with a
/// ticket before it works. The collections are its folders on the shelf, and where it is recursive those below them, as
/// `read_source` reads them; without a folder they are those of the bundle on standard input, which is read to its end. With
/// folders nothing is read from standard input.
///
/// Returns the lines that are said beside the report, where faults are explained: those that explain what it reports as `bad`,
/// and the hints at what may have been overlooked in the collections. Or it returns the error and its place: the path of the
/// folder or file that is lost; or where memory ran out at a pattern, its path, or without folders its numbers.
///
/// All is read before the first byte is written, so nothing is written where a bundle, a folder or a file is refused or
/// can't be read. Where memory is refused or the writer fails, what was written is nothing or a prefix of a report.
///
/// The gate is told how many patterns the run has, and that it has ended, unless it is to be quiet; it is told nothing where
/// nothing is run.
pub fn run_command<S: Shelf, I: Read, O: Write, E: Write, G: Gate, R: Threads + Wait + Sync>(
    rt: &R,
    shelf: &S,
    alloc: Global,
    census: &Census<'_>,
    explain: bool,
    quiet: bool,
    gate: &mut G,
    streams: &mut Streams<I, O, E>,
) -> Result<Lines, RunStopped>
    requires question { IsAnswered census.now.question }
    requires workers { (1 ≤ census.now.workers) × (census.now.workers ≤ worker_limit) }
    requires stops { StopsAtFirstLoss (source_of census.now.collections) }
    requires sound { HasSoundStreams streams.old }
    ensures done { OnOk result
        (Runs (S.tellings shelf.now)
        (source_of census.now.collections) census.now.question
        streams.old streams.new) }
    ensures lines { IfOk result (IsExplanation explain) }
    ensures sound { OnOk result (HasSoundStreams streams.new) }
    ensures fails { IfErr result
        (λ stopped. RunFails stopped.error (S.tellings shelf.now)
        (source_of census.now.collections) census.now.question
        streams.old streams.new) }
    ensures gate { MatchResult result
        (λ _. HearsRun (S.tellings shelf.now)
        (source_of census.now.collections) quiet
        streams.old.input streams.new.input (G.heard gate.old) (G.heard gate.new))
        (λ _. (G.heard gate.new ≡ G.heard gate.old)
        ⊎ HearsRun (S.tellings shelf.now)
        (source_of census.now.collections) quiet
        streams.old.input streams.new.input (G.heard gate.old) (G.heard gate.new)) }
    ensures quiet { streams.new.errors ≡ streams.old.errors }
{
    if !census.collections.folders.is_empty() {
        return run_folders(rt, shelf, alloc, census, explain, quiet, gate, streams);
    }
    match run_input(rt, shelf, alloc, census, explain, quiet, gate, streams) {
        Ok(lines) => Ok(lines),
        Err(error) => Err(RunStopped::unnamed(alloc, error)),
    }
}
