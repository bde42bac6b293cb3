//! `census run --keep-going` and `census objects --keep-going`: the report of what can be read, and for which there is memory.
ghost use Rattle.std.specs.Prelude.{◌≡◌, ◌≤◌, ◌<◌, ◌++◌, ℕ, List, false, length, All, IfOk, MatchResult, OnOk, Some};
ghost use Rattle.life_answer.specs.Questions.{IsAnswered};
ghost use Rattle.census_folders.specs.Sources.{Reads, asked_by};
ghost use Rattle.census_errors.specs.Messages.{error_line, run_status};
ghost use Rattle.census_errors.specs.declared.error.CommandError.TheVariants as command;
ghost use Rattle.census_faults.specs.Explanations.{IsExplanation};
ghost use Rattle.census_errors.specs.Sources.{asked_of};
ghost use Rattle.census_command.specs.Gates.{HearsBundle, HearsKept};
ghost use Rattle.census_command.specs.Keeps.{Keeps, StopsKeeping, kept_status, lost_line, lost_lines, pattern_path, refused_line, refused_lines};
ghost use Rattle.watched.specs.Streams.{PutsMoreBytes};
ghost use Rattle.census_command.specs.Streams.{HasSoundStreams};
ghost use Rattle.census_book.specs.Losses.{lose_all};
ghost use Rattle.census_bundle.specs.Sizes.{worker_limit};
ghost use Rattle.census_bundle.specs.Tickets.{IsTicketOf, element_at};
ghost use Rattle.census_crew.specs.Faults.{FitsFault};
ghost use Rattle.census_crew.specs.Writing.{WritesPrefix, WritesReport};

use crate::collections::folders_of;
use crate::reporting::{Origin, lines_of as lines_beside};
use census_bundle::{Bundle, Folder, Ticket};
use census_cli::Census;
use census_crew::{Gate, Tally, run_keeping, run_keeping_untold};
use census_errors::{
    CommandError, RunError, RunStopped, kept_place, run_saying, say_if, stop_saying,
};
use census_faults::{Lines, RunFault, printable_text};
use census_folders::{Kept, Loss, OnLoss, Shelf, Source, read_source};
use life_answer::Question;
use std::alloc::{AllocError, Global};
use std::io::{Read, Write};
use std::sync::Wait;
use std::thread::Threads;
use watched::{Output, Streams};

// Appends the line that reports a loss.
fn push_line(alloc: Global, lines: &mut Vec<u8>, loss: &Loss) -> Result<(), AllocError>
    ensures { OnOk result (lines.new.items ≡ lines.old.items ++ lost_line loss.now) }
{
    let path = printable_text(alloc, loss.path.as_slice())?;
    lines.extend_from_slice(b"census: lost ")?;
    lines.extend_from_slice(path.as_slice())?;
    lines.extend_from_slice(b"\n")?;
    Ok(())
}

// Appends the lines that report losses.
fn push_lines(alloc: Global, lines: &mut Vec<u8>, lost: &[Loss]) -> Result<(), AllocError>
    ensures { OnOk result (lines.new.items ≡ lines.old.items ++ lost_lines lost.now) }
{
    for loss in lost {
        push_line(alloc, lines, loss)?;
    }
    Ok(())
}

// The lines that report losses.
fn lines_of(alloc: Global, lost: &[Loss]) -> Result<Vec<u8>, AllocError>
    ensures { IfOk result (λ lines. lines.items ≡ lost_lines lost.now) }
{
    let mut lines = Vec::new(alloc);
    push_lines(alloc, &mut lines, lost)?;
    Ok(lines)
}

// Reads folders whatever is lost. Returns what was read, and the lines that report what was lost.
fn gather<S: Shelf>(
    shelf: &S,
    alloc: Global,
    source: Source<'_, '_>,
) -> Result<(Kept, Vec<u8>), RunError>
    requires { source.on_loss ≡ OnLoss.Keep }
    ensures { MatchResult result
        (λ gathered. Reads (S.tellings shelf.now) (asked_by source.entry) gathered.0
        × (gathered.1.items ≡ lost_lines gathered.0.lost))
        (StopsKeeping (S.tellings shelf.now) (asked_by source.entry)) }
{
    match read_source(shelf, alloc, source) {
        Ok(kept) => {
            let lines = lines_of(alloc, kept.lost.as_slice())?;
            Ok((kept, lines))
        }
        Err(fault) => Err(RunStopped::reading(alloc, fault).error),
    }
}

// The collection of this number.
fn folder_at(folders: &[Folder], c: u32) -> &Folder
    requires { (0 < c) × (c ≤ length folders.now) }
    ensures { element_at folders.now c ≡ Some result.now }
{
    &folders[c as usize - 1]
}

// The name of a pattern's collection, a slash, and its own name.
fn path_of(alloc: Global, bundle: &Bundle, ticket: Ticket) -> Result<Vec<u8>, AllocError>
    requires { IsTicketOf bundle.now ticket }
    ensures { IfOk result (λ path. path.items ≡ pattern_path bundle.now ticket) }
{
    let Some(entry) = bundle.entry(ticket) else {
        unreachable!();
    };
    let folder = folder_at(bundle.folders(), ticket.folder);
    let mut path = folder.name.as_slice().to_vec(alloc)?;
    path.extend_from_slice(b"/")?;
    path.extend_from_slice(entry.name.as_slice())?;
    Ok(path)
}

// Appends the line that reports that a pattern was lost since memory was refused for it.
fn push_refused_line(
    alloc: Global,
    lines: &mut Vec<u8>,
    bundle: &Bundle,
    ticket: Ticket,
) -> Result<(), AllocError>
    requires { IsTicketOf bundle.now ticket }
    ensures { OnOk result (lines.new.items ≡ lines.old.items ++ refused_line bundle.now ticket) }
{
    let path = path_of(alloc, bundle, ticket)?;
    let shown = printable_text(alloc, path.as_slice())?;
    lines.extend_from_slice(b"census: lost ")?;
    lines.extend_from_slice(shown.as_slice())?;
    lines.extend_from_slice(b": out of memory\n")?;
    Ok(())
}

// Appends the lines that report which patterns were lost since memory was refused for them.
fn push_refused_lines(
    alloc: Global,
    lines: &mut Vec<u8>,
    bundle: &Bundle,
    refused: &[Ticket],
) -> Result<(), AllocError>
    requires { All (IsTicketOf bundle.now) refused.now }
    ensures { OnOk result (lines.new.items ≡ lines.old.items ++ refused_lines bundle.now refused.now) }
{
    for i in 0..refused.len() {
        push_refused_line(alloc, lines, bundle, refused[i])?;
    }
    Ok(())
}

// The lines that report which patterns were lost since memory was refused for them.
fn refused_lines_of(
    alloc: Global,
    bundle: &Bundle,
    refused: &[Ticket],
) -> Result<Vec<u8>, AllocError>
    requires { All (IsTicketOf bundle.now) refused.now }
    ensures { IfOk result (λ lines. lines.items ≡ refused_lines bundle.now refused.now) }
{
    let mut lines = Vec::new(alloc);
    push_refused_lines(alloc, &mut lines, bundle, refused)?;
    Ok(lines)
}

// The exit status of a whole report, by what could not be read and the patterns for which memory was refused.
fn status_of_kept(lost: &[Loss], refused: &[Ticket]) -> u8
    ensures { result ≡ kept_status lost.now refused.now }
{
    if !refused.is_empty() {
        return 3;
    }
    if lost.is_empty() {
        return 0;
    }
    4
}

// Writes the report of a bundle as `run_keeping` does, or as `run_keeping_untold` does where it is to be quiet.
fn run_kept<G: Gate, W: Write, R: Threads + Wait + Sync>(
    rt: &R,
    alloc: Global,
    bundle: &Bundle,
    question: Question,
    workers: u32,
    quiet: bool,
    gate: &mut G,
    refused: &mut Vec<Ticket>,
    out: &mut Output<W>,
) -> Result<Tally, RunFault>
    requires question { IsAnswered question }
    requires workers { (1 ≤ workers) × (workers ≤ worker_limit) }
    requires sound { out.old.stream.failed ≡ false }
    ensures failed { FitsFault result out.new.stream.failed }
    ensures report { MatchResult result
        (λ _. WritesReport out.old.stream.written out.new.stream.written
        (lose_all refused.new.items bundle.now) question)
        (λ _. WritesPrefix out.old.stream.written out.new.stream.written
        (lose_all refused.new.items bundle.now) question) }
    ensures refused { All (IsTicketOf bundle.now) refused.new.items }
    ensures gate { HearsBundle quiet bundle.now (G.heard gate.old) (G.heard gate.new) }
{
    if quiet {
        run_keeping_untold(rt, alloc, bundle, question, workers, &*gate, refused, out)
    } else {
        run_keeping(rt, alloc, bundle, question, workers, gate, refused, out)
    }
}

// What is reported after a whole report: the lines of the patterns for which memory was refused, and the lines that are said
// beside it, where faults are explained.
#[derive(Drop)]
struct After {
    refused: Vec<u8>,
    beside: Lines,
}

// Writes the report of what was read from folders, and returns what is reported after it. The list becomes the tickets of the
// patterns for which memory was refused.
fn report_kept<S: Shelf, G: Gate, W: Write, R: Threads + Wait + Sync>(
    rt: &R,
    shelf: &S,
    alloc: Global,
    bundle: &Bundle,
    origin: Origin<'_>,
    census: &Census<'_>,
    explain: bool,
    quiet: bool,
    gate: &mut G,
    refused: &mut Vec<Ticket>,
    out: &mut Output<W>,
) -> Result<After, RunFault>
    requires question { IsAnswered census.now.question }
    requires workers { (1 ≤ census.now.workers) × (census.now.workers ≤ worker_limit) }
    requires sound { out.old.stream.failed ≡ false }
    ensures failed { FitsFault result out.new.stream.failed }
    ensures report { MatchResult result
        (λ _. WritesReport out.old.stream.written out.new.stream.written
        (lose_all refused.new.items bundle.now) census.now.question)
        (λ _. WritesPrefix out.old.stream.written out.new.stream.written
        (lose_all refused.new.items bundle.now) census.now.question) }
    ensures of_bundle { All (IsTicketOf bundle.now) refused.new.items }
    ensures refused { IfOk result
        (λ after. after.refused.items ≡ refused_lines bundle.now refused.new.items) }
    ensures beside { IfOk result (λ after. IsExplanation explain after.beside) }
    ensures gate { HearsBundle quiet bundle.now (G.heard gate.old) (G.heard gate.new) }
{
    run_kept(
        rt,
        alloc,
        bundle,
        census.question,
        census.workers,
        quiet,
        gate,
        refused,
        out,
    )?;
    let Ok(lines) = refused_lines_of(alloc, bundle, refused.as_slice()) else {
        return Err(RunFault::Memory { ticket: None });
    };
    match lines_beside(shelf, alloc, bundle, Some(origin), explain) {
        Ok(beside) => Ok(After {
            refused: lines,
            beside,
        }),
        Err(_) => Err(RunFault::Memory { ticket: None }),
    }
}

// Reports the error that cut a report short, after what was reported before, and returns its exit status.
fn tell_cut<E: Write>(alloc: Global, error: RunError, explain: bool, errors: &mut Output<E>) -> u8
    ensures status { result ≡ run_status error }
    ensures told { (lines : List ℕ) × IsExplanation explain lines
        × PutsMoreBytes (error_line (command.Run error) ++ lines) errors.old.stream errors.new.stream }
{
    let place = kept_place(alloc, error);
    let saying = run_saying(error).at(&place);
    let error = CommandError::Run(error);
    errors.tell(error.line().as_str().as_bytes());
    say_if(explain, saying, errors);
    error.status()
}

/// Writes the report of a census of folders, or where it is recursive of those at and below them, and returns the exit status.
/// Each worker passes the gate with a ticket before it works. Nothing is read from standard input.
///
/// What can't be listed or read does not end it, nor does a pattern for which memory is refused. A file that can't be read is a lost entry; so is, where there is a limit, a file
/// that would take the bytes of all files together past it. A folder that can't be listed is one without entries, and what has no
/// lawful name is left out, as `read_source` does. Before the report the line `census: lost PATH` goes to standard error for each
/// of them, with each byte that no lawful name has as `\x` and two digits.
///
/// - 0: the report was written, and nothing was lost.
/// - 1: there are too many folders, or too many files in one, and nothing was written.
/// - 3: memory was refused: the report was written, and a pattern was lost; or nothing was written or a prefix of the report.
/// - 4: the report was written, and something could not be read; or standard output has failed, and a prefix of it was written.
///
/// After status 1, and after a prefix or nothing at 3 and 4, the error's line was reported too, and one more where faults are
/// explained: after a prefix with the number of the pattern at which memory ran out and that of its collection, if they are
/// known. After a whole report those are the lines that explain what it reports as `bad`, and the hints at what may have been
/// overlooked in the folders. The gate is told how many patterns the run has, and that it has ended, unless it is to be quiet; it
/// is told nothing where nothing is run.
pub fn keep_going<S: Shelf, I: Read, O: Write, E: Write, G: Gate, R: Threads + Wait + Sync>(
    rt: &R,
    shelf: &S,
    alloc: Global,
    census: &Census<'_>,
    explain: bool,
    quiet: bool,
    gate: &mut G,
    streams: &mut Streams<I, O, E>,
) -> u8
    requires question { IsAnswered census.now.question }
    requires workers { (1 ≤ census.now.workers) × (census.now.workers ≤ worker_limit) }
    requires keeps { (asked_of census.now.collections).on_loss ≡ OnLoss.Keep }
    requires sound { HasSoundStreams streams.old }
    requires errors { streams.old.errors.failed ≡ false }
    ensures kept { Keeps (S.tellings shelf.now) (asked_of census.now.collections) census.now.question explain result
        streams.old streams.new }
    ensures gate { HearsKept (S.tellings shelf.now) (asked_of census.now.collections) quiet result
        (G.heard gate.old) (G.heard gate.new) }
{
    let source = folders_of(&census.collections);
    let (kept, lost) = match gather(shelf, alloc, source) {
        Ok(gathered) => gathered,
        Err(error) => {
            let saying = run_saying(error);
            return stop_saying(
                CommandError::Run(error),
                saying,
                explain,
                &mut streams.errors,
            );
        }
    };
    streams.errors.tell(lost.as_slice());
    let mut refused = Vec::new(alloc);
    match report_kept(
        rt,
        shelf,
        alloc,
        &kept.bundle,
        Origin {
            source,
            lost: kept.lost.as_slice(),
        },
        census,
        explain,
        quiet,
        gate,
        &mut refused,
        &mut streams.output,
    ) {
        Ok(after) => {
            streams.errors.tell(after.refused.as_slice());
            streams.errors.tell(after.beside.as_slice());
            status_of_kept(kept.lost.as_slice(), refused.as_slice())
        }
        Err(fault) => tell_cut(alloc, RunError::from(fault), explain, &mut streams.errors),
    }
}
