//! The state of a run.
ghost use Rattle.std.specs.Prelude.{◌≡◌, ◌≢◌, ◌<◌, ◌≤◌, ◌^◌, ℕ, List, [], Option, true, false, MatchBool, MatchResult, OnOk, IfErr, IfOk, IfSome, IfNone};
ghost use Rattle.life_answer.specs.Questions.{IsAnswered};
ghost use Rattle.census_bundle.specs.Sizes.{IsWithinCounts};
ghost use Rattle.census_bundle.specs.Tickets.{has_ticket, with_ticket, HasAllTickets, IsTicketOf};
ghost use Rattle.census_book.specs.Collecting.{after_offer, Judged, Offered};
ghost use Rattle.census_book.specs.Progress.{initial_progress};
ghost use Rattle.census_crew.specs.Faults.{FitsFault, TellsTicket, TellsTicketOf};
ghost use Rattle.census_crew.specs.RunStates.{IsRunState, IsRunState-prop};
ghost use Rattle.census_crew.specs.Strangers.{HasStrangers, NotesStranger};
ghost use Rattle.census_crew.specs.Tallying.{TalliesPatterns};
ghost use Rattle.census_crew.specs.Writing.{EndsInStep, StaysInStep, StopsInStep};

use crate::answering;
use crate::tally::Tally;
use crate::writing::flush;
use census_book::{Collector, Done, Offer};
use census_bundle::{Bundle, Ticket};
use census_faults::RunFault;
use life_answer::Question;
use std::alloc::{AllocError, Global};
use std::io::Write;
use watched::{Failed, Output};

/// The state of a run: the results that were taken, the text that they release, and the counts.
#[derive(Drop)]
pub(crate) struct RunState<'a> {
    pub(crate) collector: Collector<'a>,
    pub(crate) tally: Tally,
    ghost sound: { IsRunState collector tally } by { IsRunState-prop collector tally },
}

/// The bundle is small, as each bundle is.
pub(crate) fn is_small(bundle: &Bundle)
    ensures { IsWithinCounts bundle.now }
{
    bundle.folders();
}

impl<'a> RunState<'a> {
    /// The state before any result is taken.
    pub(crate) fn new(
        alloc: Global,
        bundle: &'a Bundle,
        question: Question,
    ) -> Result<RunState<'a>, AllocError>
        requires { IsAnswered question }
        ensures collector { IfOk result
            (λ state. state.collector ≡ initial_progress bundle.now question) }
        ensures strangers { IfOk result (λ state. state.tally.strangers ≡ 0) }
    {
        is_small(bundle);
        let collector = Collector::new(alloc, bundle, question)?;
        Ok(RunState {
            collector,
            tally: Tally::new(),
        })
    }

    /// Takes a result. `None` says that there was no memory to take it, although it is of this bundle and question.
    pub(crate) fn take(&mut self, done: Done<'a>) -> Option<Offer>
        ensures offered { IfSome result
            (λ o. Offered self.old.collector done.entry self.new.collector o) }
        ensures no_room { IfNone result (self.new.collector ≡ self.old.collector) }
        ensures step { (written : Option (List ℕ)) →
            StaysInStep written self.old.collector written self.new.collector }
        ensures strangers { NotesStranger self.old.collector.bundle self.old.collector.question
            done.entry self.old.tally.strangers self.new.tally.strangers }
    {
        let counted = self.tally.with(done.answer());
        match self.collector.offer(done) {
            Ok(Offer::Taken) => {
                self.tally = counted;
                Some(Offer::Taken)
            }
            Ok(Offer::Double) => {
                self.tally.doubles = self.tally.doubles.saturating_add(1);
                Some(Offer::Double)
            }
            Ok(Offer::Stranger) => {
                self.tally.strangers = self.tally.strangers.saturating_add(1);
                Some(Offer::Stranger)
            }
            Err(_) => return None,
        }
    }

    /// Writes the text that is unsent.
    pub(crate) fn send<W: Write>(&mut self, out: &mut Output<W>) -> Result<(), Failed>
        ensures failed { MatchResult result (λ _. out.new.stream.failed ≡ false)
            (λ _. out.new.stream.failed ≡ true) }
        ensures tally { self.new.tally ≡ self.old.tally }
        ensures taken { self.new.collector.taken ≡ self.old.collector.taken }
        ensures step { MatchResult result
            (λ _. StaysInStep out.old.stream.written self.old.collector
            out.new.stream.written self.new.collector)
            (λ _. StopsInStep out.old.stream.written self.old.collector
            out.new.stream.written) }
        ensures sent { OnOk result (self.new.collector.unsent ≡ []) }
    {
        flush(&mut self.collector, out)
    }

    // Takes a result, and writes what it releases.
    fn arrive<W: Write>(
        &mut self,
        done: Done<'a>,
        out: &mut Output<W>,
    ) -> Result<Option<Offer>, Failed>
        requires sound { out.old.stream.failed ≡ false }
        ensures failed { MatchResult result (λ _. out.new.stream.failed ≡ false)
            (λ _. out.new.stream.failed ≡ true) }
        ensures step { MatchResult result
            (λ _. StaysInStep out.old.stream.written self.old.collector
            out.new.stream.written self.new.collector)
            (λ _. StopsInStep out.old.stream.written self.old.collector
            out.new.stream.written) }
        ensures sent { OnOk result
            (self.old.collector.unsent ≡ [] → self.new.collector.unsent ≡ []) }
        ensures offered { IfOk result (λ o. IfSome o (λ offer.
            Judged self.old.collector.bundle self.old.collector.question self.old.collector.taken
            done.entry offer
            × (self.new.collector.taken ≡
            (after_offer self.old.collector done.entry.ticket offer).taken))) }
        ensures strangers { NotesStranger self.old.collector.bundle self.old.collector.question
            done.entry self.old.tally.strangers self.new.tally.strangers }
    {
        let Some(offer) = self.take(done) else {
            return Ok(None);
        };
        self.send(out)?;
        Ok(Some(offer))
    }

    /// Takes results in their order, and writes what they release.
    pub(crate) fn take_all<W: Write>(
        &mut self,
        arrivals: Vec<Done<'a>>,
        out: &mut Output<W>,
    ) -> Result<(), Failed>
        requires sound { out.old.stream.failed ≡ false }
        requires sent { self.old.collector.unsent ≡ [] }
        requires none { self.old.tally.strangers ≡ 0 }
        ensures failed { MatchResult result (λ _. out.new.stream.failed ≡ false)
            (λ _. out.new.stream.failed ≡ true) }
        ensures step { MatchResult result
            (λ _. StaysInStep out.old.stream.written self.old.collector
            out.new.stream.written self.new.collector)
            (λ _. StopsInStep out.old.stream.written self.old.collector
            out.new.stream.written) }
        ensures sent { OnOk result (self.new.collector.unsent ≡ []) }
        ensures strangers { OnOk result
            (HasStrangers self.old.collector.bundle self.old.collector.question arrivals.entry.items
            self.new.tally.strangers) }
    {
        for done in arrivals {
            self.arrive(done, out)?;
        }
        Ok(())
    }

    // Works a ticket that is missing, and writes what it releases. `false` says that memory was refused, and that the ticket is
    // still missing.
    pub(crate) fn try_missing<W: Write>(
        &mut self,
        alloc: Global,
        ticket: Ticket,
        out: &mut Output<W>,
    ) -> Result<bool, Failed>
        requires of_bundle { IsTicketOf self.old.collector.bundle ticket }
        requires not_taken { has_ticket self.old.collector.taken ticket ≡ false }
        requires sound { out.old.stream.failed ≡ false }
        requires sent { self.old.collector.unsent ≡ [] }
        ensures failed { MatchResult result (λ _. out.new.stream.failed ≡ false)
            (λ _. out.new.stream.failed ≡ true) }
        ensures step { MatchResult result
            (λ _. StaysInStep out.old.stream.written self.old.collector
            out.new.stream.written self.new.collector)
            (λ _. StopsInStep out.old.stream.written self.old.collector
            out.new.stream.written) }
        ensures sent { OnOk result (self.new.collector.unsent ≡ []) }
        ensures taken { IfOk result (λ worked. worked ≡ true →
            self.new.collector.taken ≡ with_ticket self.old.collector.taken ticket) }
        ensures strangers { OnOk result (self.new.tally.strangers ≡ self.old.tally.strangers) }
    {
        let Some(entry) = self.collector.bundle().entry(ticket) else {
            unreachable!();
        };
        let Ok(done) = answering::work(alloc, ticket, entry, self.collector.question()) else {
            return Ok(false);
        };
        match self.arrive(done, out)? {
            Some(Offer::Taken) => {
                self.tally.caught_up = self.tally.caught_up.saturating_add(1);
                Ok(true)
            }
            Some(_) => unreachable!(),
            None => Ok(false),
        }
    }

    // Works a ticket that is missing, and writes what it releases.
    fn work_missing<W: Write>(
        &mut self,
        alloc: Global,
        ticket: Ticket,
        out: &mut Output<W>,
    ) -> Result<(), RunFault>
        requires of_bundle { IsTicketOf self.old.collector.bundle ticket }
        requires not_taken { has_ticket self.old.collector.taken ticket ≡ false }
        requires sound { out.old.stream.failed ≡ false }
        requires sent { self.old.collector.unsent ≡ [] }
        ensures failed { FitsFault result out.new.stream.failed }
        ensures step { MatchResult result
            (λ _. StaysInStep out.old.stream.written self.old.collector
            out.new.stream.written self.new.collector)
            (λ _. StopsInStep out.old.stream.written self.old.collector
            out.new.stream.written) }
        ensures sent { OnOk result (self.new.collector.unsent ≡ []) }
        ensures told { IfErr result (TellsTicket ticket) }
        ensures taken { OnOk result
            (self.new.collector.taken ≡ with_ticket self.old.collector.taken ticket) }
        ensures strangers { OnOk result (self.new.tally.strangers ≡ self.old.tally.strangers) }
    {
        let worked = self.try_missing(alloc, ticket, out)?;
        if !worked {
            return Err(RunFault::memory_at(ticket));
        }
        Ok(())
    }

    // Works each ticket that is missing, the least one first, and writes what they release.
    fn catch_up<W: Write>(&mut self, alloc: Global, out: &mut Output<W>) -> Result<(), RunFault>
        requires sound { out.old.stream.failed ≡ false }
        requires sent { self.old.collector.unsent ≡ [] }
        ensures failed { FitsFault result out.new.stream.failed }
        ensures step { MatchResult result
            (λ _. StaysInStep out.old.stream.written self.old.collector
            out.new.stream.written self.new.collector)
            (λ _. StopsInStep out.old.stream.written self.old.collector
            out.new.stream.written) }
        ensures told { IfErr result (TellsTicketOf self.old.collector.bundle) }
        ensures whole { OnOk result
            ((self.new.collector.unsent ≡ []) ×
            HasAllTickets self.new.collector.bundle self.new.collector.taken) }
        ensures strangers { OnOk result (self.new.tally.strangers ≡ self.old.tally.strangers) }
    {
        while let Some(ticket) = self.collector.missing() {
            self.work_missing(alloc, ticket, out)?;
        }
        Ok(())
    }

    /// Works the missing tickets, writes the rest of the report, and returns the counts.
    pub(crate) fn finish<W: Write>(
        mut self,
        alloc: Global,
        out: &mut Output<W>,
    ) -> Result<Tally, RunFault>
        requires sound { out.old.stream.failed ≡ false }
        requires sent { self.collector.unsent ≡ [] }
        ensures failed { FitsFault result out.new.stream.failed }
        ensures ends { MatchResult result
            (λ _. EndsInStep out.old.stream.written self.entry.collector
            out.new.stream.written)
            (λ _. StopsInStep out.old.stream.written self.entry.collector
            out.new.stream.written) }
        ensures told { IfErr result (TellsTicketOf self.entry.collector.bundle) }
        ensures tally { IfOk result
            (TalliesPatterns self.entry.collector.bundle self.entry.collector.question) }
        ensures strangers { IfOk result (λ t. t.strangers ≡ self.entry.tally.strangers) }
    {
        self.catch_up(alloc, out)?;
        Ok(self.tally)
    }
}
