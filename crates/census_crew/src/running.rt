//! Runs: by workers that are started here, or without any.
ghost use Rattle.std.specs.Prelude.{◌≡◌, ◌≤◌, false, MatchResult, IfErr, IfOk};
ghost use Rattle.life_answer.specs.Questions.{IsAnswered};
ghost use Rattle.census_crew.specs.Faults.{FitsFault, MayTellTicket};
ghost use Rattle.census_crew.specs.Gates.{Hears, news_of, told_count};
ghost use Rattle.census_crew.specs.Strangers.{HasStrangers};
ghost use Rattle.census_crew.specs.Tallying.{TalliesPatterns};
ghost use Rattle.census_crew.specs.Writing.{WritesPrefix, WritesReport};
ghost use Rattle.census_bundle.specs.Sizes.{worker_limit};

use crate::gate::Gate;
use crate::handles::{Feed, Hand};
use crate::run_state::RunState;
use crate::tally::Tally;
use census_book::Done;
use census_bundle::Bundle;
use census_faults::RunFault;
use life_answer::Question;
use std::alloc::Global;
use std::io::Write;
use std::sync::Wait;
use std::thread::Threads;
use watched::Output;

/// The number of patterns in a bundle, as far as 64 bits go.
pub(crate) fn patterns_of(bundle: &Bundle) -> u64
    ensures { result ≡ told_count bundle.now }
{
    let mut patterns: u64 = 0;
    for folder in bundle.folders() {
        patterns = patterns.saturating_add(folder.entries.as_slice().len() as u64);
    }
    patterns
}

/// Writes the report that answers the question for the bundle's patterns to a writer that has not failed. A bound is 1 to
/// 1,000,000 generations. The patterns are worked by 1 to 16 workers. Each takes tickets and passes the gate with each before
/// it works. The caller takes their results and writes, and then works the missing tickets itself. Before that the gate hears
/// how many patterns there are, and after it that the run has ended, whatever is returned. `Ok` says that everything was
/// written. After `Memory` or `Write` the text that was written is a prefix of a report. `Write` is returned if and only if the
/// writer has failed. A ticket that `Memory` has is one of the bundle's.
pub fn run<G: Gate, W: Write, R: Threads + Wait + Sync>(
    rt: &R,
    alloc: Global,
    bundle: &Bundle,
    question: Question,
    workers: u32,
    gate: &mut G,
    out: &mut Output<W>,
) -> Result<Tally, RunFault>
    requires question { IsAnswered question }
    requires workers { (1 ≤ workers) × (workers ≤ worker_limit) }
    requires sound { out.old.stream.failed ≡ false }
    ensures failed { FitsFault result out.new.stream.failed }
    ensures report { MatchResult result
        (λ _. WritesReport out.old.stream.written out.new.stream.written
        bundle.now question)
        (λ _. WritesPrefix out.old.stream.written out.new.stream.written
        bundle.now question) }
    ensures tally { IfOk result (TalliesPatterns bundle.now question) }
    ensures told { IfErr result (MayTellTicket bundle.now) }
    ensures gate { Hears (G.heard gate.old) (G.heard gate.new) (news_of bundle.now) }
{
    gate.begin(patterns_of(bundle));
    let written = run_untold(rt, alloc, bundle, question, workers, &*gate, out);
    gate.end();
    written
}

/// Does what `run` does, but doesn't report to the gate how many patterns there are, nor that the run has ended.
pub fn run_untold<G: Gate, W: Write, R: Threads + Wait + Sync>(
    rt: &R,
    alloc: Global,
    bundle: &Bundle,
    question: Question,
    workers: u32,
    gate: &G,
    out: &mut Output<W>,
) -> Result<Tally, RunFault>
    requires question { IsAnswered question }
    requires workers { (1 ≤ workers) × (workers ≤ worker_limit) }
    requires sound { out.old.stream.failed ≡ false }
    ensures failed { FitsFault result out.new.stream.failed }
    ensures report { MatchResult result
        (λ _. WritesReport out.old.stream.written out.new.stream.written
        bundle.now question)
        (λ _. WritesPrefix out.old.stream.written out.new.stream.written
        bundle.now question) }
    ensures tally { IfOk result (TalliesPatterns bundle.now question) }
    ensures told { IfErr result (MayTellTicket bundle.now) }
{
    let (feed, hands) = Feed::fill(alloc, bundle, workers)?;
    run_on(rt, alloc, bundle, question, feed, hands, gate, out)
}

/// Does what `run_untold` does, with a feed that the caller filled from this bundle, and all the hands of that feed: each goes
/// to a worker. The caller works any ticket that a hand took before. Feed and hands are spent, whatever is returned.
pub fn run_on<G: Gate, W: Write, R: Threads + Wait + Sync>(
    rt: &R,
    alloc: Global,
    bundle: &Bundle,
    question: Question,
    feed: Feed,
    hands: Vec<Hand>,
    gate: &G,
    out: &mut Output<W>,
) -> Result<Tally, RunFault>
    requires question { IsAnswered question }
    requires sound { out.old.stream.failed ≡ false }
    ensures failed { FitsFault result out.new.stream.failed }
    ensures report { MatchResult result
        (λ _. WritesReport out.old.stream.written out.new.stream.written
        bundle.now question)
        (λ _. WritesPrefix out.old.stream.written out.new.stream.written
        bundle.now question) }
    ensures tally { IfOk result (TalliesPatterns bundle.now question) }
    ensures told { IfErr result (MayTellTicket bundle.now) }
{
    let mut state = RunState::new(alloc, bundle, question)?;
    state.send(out)?;
    let state = state.share(rt, alloc, hands, gate, out)?;
    drop(feed);
    state.finish(alloc, out)
}

/// Writes the report that answers the question for the bundle's patterns to a writer that has not failed, by workers of the
/// caller's own, or by none. A bound is 1 to 1,000,000 generations. The results are offered in their order, and each ticket
/// that is then missing is worked here. `Ok` says that everything was written. After `Memory` or `Write` the text that was
/// written is a prefix of a report. `Write` is returned if and only if the writer has failed. A ticket that `Memory` has is one
/// of the bundle's. It waits for nobody.
pub fn settle<'a, W: Write>(
    alloc: Global,
    bundle: &'a Bundle,
    question: Question,
    arrivals: Vec<Done<'a>>,
    out: &mut Output<W>,
) -> Result<Tally, RunFault>
    requires question { IsAnswered question }
    requires sound { out.old.stream.failed ≡ false }
    ensures failed { FitsFault result out.new.stream.failed }
    ensures report { MatchResult result
        (λ _. WritesReport out.old.stream.written out.new.stream.written
        bundle.now question)
        (λ _. WritesPrefix out.old.stream.written out.new.stream.written
        bundle.now question) }
    ensures tally { IfOk result (TalliesPatterns bundle.now question) }
    ensures told { IfErr result (MayTellTicket bundle.now) }
    ensures strangers { IfOk result
        (λ t. HasStrangers bundle.now question arrivals.entry.items t.strangers) }
{
    let mut state = RunState::new(alloc, bundle, question)?;
    state.send(out)?;
    state.take_all(arrivals, out)?;
    state.finish(alloc, out)
}
