//! The report of a bundle, and the lines that are said beside it.
ghost use Rattle.std.specs.Prelude.{◌≡◌, ◌≤◌, false, IfOk, MatchResult};
ghost use Rattle.life_answer.specs.Questions.{IsAnswered};
ghost use Rattle.census_crew.specs.Faults.{FitsFault};
ghost use Rattle.census_crew.specs.Writing.{WritesPrefix, WritesReport};
ghost use Rattle.census_faults.specs.Explanations.{IsExplanation};
ghost use Rattle.census_command.specs.Gates.{HearsBundle};
ghost use Rattle.census_bundle.specs.Sizes.{worker_limit};

use census_bundle::{Bundle, Ticket};
use census_crew::{Gate, Tally, run, run_untold};
use census_faults::{Lines, RunFault, refusal_lines};
use census_folders::{Cause, Loss, Shelf, Source, push_hints};
use life_answer::Question;
use std::alloc::{AllocError, Global};
use std::io::Write;
use std::sync::Wait;
use std::thread::Threads;
use watched::Output;

/// What a bundle was read from, and what was lost of it.
#[derive(Clone, Copy)]
pub struct Origin<'a> {
    pub source: Source<'a, 'a>,
    pub lost: &'a [Loss],
}

// The tickets of the patterns that are lost because they are too long, in order.
fn too_long(alloc: Global, lost: &[Loss]) -> Result<Vec<Ticket>, AllocError> {
    let mut tickets = Vec::new(alloc);
    for loss in lost {
        if loss.cause == Cause::TooLong {
            if let Some(ticket) = loss.entry {
                tickets.push(ticket)?;
            }
        }
    }
    Ok(tickets)
}

/// What is said beside a report of a bundle, where faults are explained: the lines that explain what it reports as `bad`, and then
/// the hints at what may have been overlooked in the bundle. Otherwise there is none.
pub fn lines_of<S: Shelf>(
    shelf: &S,
    alloc: Global,
    bundle: &Bundle,
    origin: Option<Origin<'_>>,
    explain: bool,
) -> Result<Lines, AllocError>
    ensures { IfOk result (IsExplanation explain) }
{
    if !explain {
        return Ok(Lines::none(alloc));
    }
    let Some(origin) = origin else {
        let mut lines = refusal_lines(alloc, bundle, &[])?;
        push_hints(shelf, alloc, &mut lines, bundle, None)?;
        return Ok(lines);
    };
    let tickets = too_long(alloc, origin.lost)?;
    let mut lines = refusal_lines(alloc, bundle, tickets.as_slice())?;
    push_hints(shelf, alloc, &mut lines, bundle, Some(origin.source))?;
    Ok(lines)
}

// Writes the report of a bundle as `run` does, or as `run_untold` does where it is to be quiet.
fn run_as_asked<G: Gate, W: Write, R: Threads + Wait + Sync>(
    rt: &R,
    alloc: Global,
    bundle: &Bundle,
    question: Question,
    workers: u32,
    quiet: bool,
    gate: &mut G,
    out: &mut Output<W>,
) -> Result<Tally, RunFault>
    requires question { IsAnswered question }
    requires workers { (1 ≤ workers) × (workers ≤ worker_limit) }
    requires sound { out.old.stream.failed ≡ false }
    ensures failed { FitsFault result out.new.stream.failed }
    ensures report { MatchResult result
        (λ _. WritesReport out.old.stream.written out.new.stream.written
        bundle.now question)
        (λ _. WritesPrefix out.old.stream.written out.new.stream.written
        bundle.now question) }
    ensures gate { HearsBundle quiet bundle.now (G.heard gate.old) (G.heard gate.new) }
{
    if quiet {
        run_untold(rt, alloc, bundle, question, workers, &*gate, out)
    } else {
        run(rt, alloc, bundle, question, workers, gate, out)
    }
}

/// Writes the report of a bundle as `run` does, and returns the lines that are said beside it, where faults are explained: those
/// that explain what it reports as `bad`, and the hints at what may have been overlooked in the bundle. The shelf is asked what
/// folders list only where the bundle was read from them, so that its origin is given. Where memory is refused for these lines,
/// the whole report was written. The gate is told of the run, unless it is to be quiet.
pub fn report<S: Shelf, G: Gate, W: Write, R: Threads + Wait + Sync>(
    rt: &R,
    shelf: &S,
    alloc: Global,
    bundle: &Bundle,
    origin: Option<Origin<'_>>,
    question: Question,
    workers: u32,
    explain: bool,
    quiet: bool,
    gate: &mut G,
    out: &mut Output<W>,
) -> Result<Lines, RunFault>
    requires question { IsAnswered question }
    requires workers { (1 ≤ workers) × (workers ≤ worker_limit) }
    requires sound { out.old.stream.failed ≡ false }
    ensures failed { FitsFault result out.new.stream.failed }
    ensures report { MatchResult result
        (λ _. WritesReport out.old.stream.written out.new.stream.written
        bundle.now question)
        (λ _. WritesPrefix out.old.stream.written out.new.stream.written
        bundle.now question) }
    ensures lines { IfOk result (IsExplanation explain) }
    ensures gate { HearsBundle quiet bundle.now (G.heard gate.old) (G.heard gate.new) }
{
    run_as_asked(rt, alloc, bundle, question, workers, quiet, gate, out)?;
    match lines_of(shelf, alloc, bundle, origin, explain) {
        Ok(lines) => Ok(lines),
        Err(_) => Err(RunFault::Memory { ticket: None }),
    }
}
