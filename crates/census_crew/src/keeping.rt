//! Runs that continue when memory is refused for a pattern, which is then lost.
ghost use Rattle.std.specs.Prelude.{◌≡◌, ◌≤◌, true, false, [], All, MatchResult, IfErr, IfOk, IfSome, OnErr, OnOk, Some, slice_get};
ghost use Rattle.life_answer.specs.Questions.{IsAnswered};
ghost use Rattle.census_bundle.specs.Sizes.{worker_limit};
ghost use Rattle.census_bundle.specs.Tickets.{IsTicketOf};
ghost use Rattle.census_book.specs.Losses.{Loses, lose_all, over};
ghost use Rattle.census_crew.specs.Faults.{FitsFault, MayTellTicket, TellsNoTicket};
ghost use Rattle.census_crew.specs.Gates.{Hears, news_of};
ghost use Rattle.census_crew.specs.Losing.{Misses};
ghost use Rattle.census_crew.specs.Tallying.{TalliesPatterns};
ghost use Rattle.census_crew.specs.Writing.{StaysInStep, StopsInStep, WritesPrefix, WritesReport};

use crate::gate::Gate;
use crate::handles::Feed;
use crate::losing::{copy_losing, list_missing};
use crate::run_state::{RunState, is_small};
use crate::running::patterns_of;
use crate::tally::Tally;
use census_bundle::{Bundle, Ticket};
use census_faults::RunFault;
use life_answer::Question;
use std::alloc::Global;
use std::io::Write;
use std::sync::Wait;
use std::thread::Threads;
use watched::{Failed, Output};

// The first of these tickets.
fn first_of(tickets: &[Ticket]) -> Option<Ticket>
    ensures { IfSome result (λ t. slice_get tickets.now 0 ≡ Some t) }
{
    match tickets {
        [first, ..] => Some(*first),
        [] => None,
    }
}

impl<'a> RunState<'a> {
    // Works those of these tickets that are missing, and writes what they release. A ticket for which memory is refused is
    // still missing afterwards.
    fn try_each<W: Write>(
        &mut self,
        alloc: Global,
        tickets: &[Ticket],
        out: &mut Output<W>,
    ) -> Result<(), Failed>
        requires of_bundle { All (IsTicketOf self.old.collector.bundle) tickets.now }
        requires sound { out.old.stream.failed ≡ false }
        requires sent { self.old.collector.unsent ≡ [] }
        ensures failed { MatchResult result (λ _. out.new.stream.failed ≡ false)
            (λ _. out.new.stream.failed ≡ true) }
        ensures step { MatchResult result
            (λ _. StaysInStep out.old.stream.written self.old.collector
            out.new.stream.written self.new.collector)
            (λ _. StopsInStep out.old.stream.written self.old.collector
            out.new.stream.written) }
        ensures sent { OnOk result (self.new.collector.unsent ≡ []) }
    {
        for i in 0..tickets.len() {
            let ticket = tickets[i];
            if self.collector.holds(ticket) {
                continue;
            }
            self.try_missing(alloc, ticket, out)?;
        }
        Ok(())
    }

    // Works the missing tickets, and writes what they release. The list becomes the tickets for which memory was refused, and
    // which are still missing.
    fn try_and_list<W: Write>(
        &mut self,
        alloc: Global,
        left: &mut Vec<Ticket>,
        out: &mut Output<W>,
    ) -> Result<(), RunFault>
        requires sound { out.old.stream.failed ≡ false }
        requires sent { self.old.collector.unsent ≡ [] }
        ensures failed { FitsFault result out.new.stream.failed }
        ensures step { MatchResult result
            (λ _. StaysInStep out.old.stream.written self.old.collector
            out.new.stream.written self.new.collector)
            (λ _. StopsInStep out.old.stream.written self.old.collector
            out.new.stream.written) }
        ensures sent { OnOk result (self.new.collector.unsent ≡ []) }
        ensures told { IfErr result TellsNoTicket }
        ensures left { OnOk result
            (Misses self.new.collector.bundle self.new.collector.taken left.new.items) }
    {
        list_missing(&self.collector, left)?;
        self.try_each(alloc, left.as_slice(), out)?;
        list_missing(&self.collector, left)?;
        Ok(())
    }

    // Does what `try_and_list` does. The list is empty after an error.
    fn try_all<W: Write>(
        &mut self,
        alloc: Global,
        left: &mut Vec<Ticket>,
        out: &mut Output<W>,
    ) -> Result<(), RunFault>
        requires sound { out.old.stream.failed ≡ false }
        requires sent { self.old.collector.unsent ≡ [] }
        ensures failed { FitsFault result out.new.stream.failed }
        ensures step { MatchResult result
            (λ _. StaysInStep out.old.stream.written self.old.collector
            out.new.stream.written self.new.collector)
            (λ _. StopsInStep out.old.stream.written self.old.collector
            out.new.stream.written) }
        ensures sent { OnOk result (self.new.collector.unsent ≡ []) }
        ensures told { IfErr result TellsNoTicket }
        ensures left { OnOk result
            (Misses self.new.collector.bundle self.new.collector.taken left.new.items) }
        ensures none { OnErr result (left.new.items ≡ []) }
    {
        match self.try_and_list(alloc, left, out) {
            Ok(()) => Ok(()),
            Err(fault) => {
                left.clear();
                Err(fault)
            }
        }
    }

    // Continues with a bundle in which the texts of tickets that are missing are lost.
    fn lose(&mut self, bundle: &'a Bundle)
        requires { Loses self.old.collector.bundle self.old.collector.taken bundle.now }
        ensures { self.new.collector ≡ over bundle.now self.old.collector }
    {
        is_small(bundle);
        self.collector.lose(bundle);
    }
}

// Makes an empty bundle the copy of a bundle, in which the texts of these tickets are lost. If memory is refused for it, none
// is lost, and the fault has the first of the tickets.
fn copy_or_clear(copy: &mut Bundle, bundle: &Bundle, lost: &mut Vec<Ticket>) -> Result<(), RunFault>
    requires empty { copy.old ≡ [] }
    requires of_bundle { All (IsTicketOf bundle.now) lost.old.items }
    ensures memory { FitsFault result false }
    ensures copied { OnOk result (copy.new ≡ lose_all lost.old.items bundle.now) }
    ensures lost { OnOk result (lost.new.items ≡ lost.old.items) }
    ensures none { OnErr result (lost.new.items ≡ []) }
    ensures told { IfErr result (MayTellTicket bundle.now) }
{
    match copy_losing(copy, bundle, lost.as_slice()) {
        Ok(()) => Ok(()),
        Err(_) => {
            let first = first_of(lost.as_slice());
            lost.clear();
            Err(RunFault::Memory { ticket: first })
        }
    }
}

/// Does what `run` does, but continues when memory is refused for a pattern: its text counts as lost, so that it is reported as
/// `bad 0`. The list becomes the tickets of these patterns, in rising order, and the report is that of the bundle in which
/// their texts are lost. Workers leave a ticket for which memory is refused to the caller, who works it at the end, when no
/// other pattern takes memory, and then copies the bundle if any is lost. `Memory` says that memory was refused for anything
/// else.
pub fn run_keeping<G: Gate, W: Write, R: Threads + Wait + Sync>(
    rt: &R,
    alloc: Global,
    bundle: &Bundle,
    question: Question,
    workers: u32,
    gate: &mut G,
    lost: &mut Vec<Ticket>,
    out: &mut Output<W>,
) -> Result<Tally, RunFault>
    requires question { IsAnswered question }
    requires workers { (1 ≤ workers) × (workers ≤ worker_limit) }
    requires sound { out.old.stream.failed ≡ false }
    ensures failed { FitsFault result out.new.stream.failed }
    ensures report { MatchResult result
        (λ _. WritesReport out.old.stream.written out.new.stream.written
        (lose_all lost.new.items bundle.now) question)
        (λ _. WritesPrefix out.old.stream.written out.new.stream.written
        (lose_all lost.new.items bundle.now) question) }
    ensures lost { All (IsTicketOf bundle.now) lost.new.items }
    ensures tally { IfOk result (TalliesPatterns (lose_all lost.new.items bundle.now) question) }
    ensures told { IfErr result (MayTellTicket bundle.now) }
    ensures gate { Hears (G.heard gate.old) (G.heard gate.new) (news_of bundle.now) }
{
    gate.begin(patterns_of(bundle));
    let written = run_keeping_untold(rt, alloc, bundle, question, workers, &*gate, lost, out);
    gate.end();
    written
}

/// Does what `run_keeping` does, but doesn't report to the gate how many patterns there are, nor that the run has ended.
pub fn run_keeping_untold<G: Gate, W: Write, R: Threads + Wait + Sync>(
    rt: &R,
    alloc: Global,
    bundle: &Bundle,
    question: Question,
    workers: u32,
    gate: &G,
    lost: &mut Vec<Ticket>,
    out: &mut Output<W>,
) -> Result<Tally, RunFault>
    requires question { IsAnswered question }
    requires workers { (1 ≤ workers) × (workers ≤ worker_limit) }
    requires sound { out.old.stream.failed ≡ false }
    ensures failed { FitsFault result out.new.stream.failed }
    ensures report { MatchResult result
        (λ _. WritesReport out.old.stream.written out.new.stream.written
        (lose_all lost.new.items bundle.now) question)
        (λ _. WritesPrefix out.old.stream.written out.new.stream.written
        (lose_all lost.new.items bundle.now) question) }
    ensures lost { All (IsTicketOf bundle.now) lost.new.items }
    ensures tally { IfOk result (TalliesPatterns (lose_all lost.new.items bundle.now) question) }
    ensures told { IfErr result (MayTellTicket bundle.now) }
{
    lost.clear();
    lost.reserve(patterns_of(bundle) as usize)?;
    let (feed, hands) = Feed::fill(alloc, bundle, workers)?;
    let mut lossy = Bundle::empty(alloc);
    let mut state = RunState::new(alloc, bundle, question)?;
    state.send(out)?;
    let mut state = state.share(rt, alloc, hands, gate, out)?;
    drop(feed);
    state.try_all(alloc, lost, out)?;
    if lost.as_slice().is_empty() {
        return state.finish(alloc, out);
    }
    copy_or_clear(&mut lossy, bundle, lost)?;
    state.lose(&lossy);
    state.finish(alloc, out)
}
