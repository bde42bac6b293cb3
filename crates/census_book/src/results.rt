//! The results that were taken.
ghost use Rattle.std.specs.Prelude.{◌≡◌, ◌≢◌, ◌<◌, ◌≤◌, true, false, length, Some, IfOk, IfErr, OnOk, OnErr, IfSome, IfNone, MatchBool};
ghost use Rattle.census_bundle.specs.Tickets.{has_ticket, no_tickets, with_ticket};
ghost use Rattle.census_book.specs.Collecting.{HasCollection, IsResult, IsResultOf, Judged};
ghost use Rattle.census_book.specs.Losses.{Loses};
ghost use Rattle.census_book.specs.Progress.{taken_of};

use crate::done::Done;
use crate::no_room::NoRoom;
use crate::offer::Offer;
use crate::slots::Slots;
use census_bundle::{Bundle, Folder, Ticket};
use life_answer::Question;
use std::alloc::{AllocError, Global};
use std::marker::Model;

/// The results of a bundle's tickets that were taken, for one question. Those of a collection that has arrived whole may
/// be dropped.
#[derive(Drop)]
pub struct Results<'a> {
    bundle: &'a Bundle,
    question: Question,
    slots: Slots<'a>,
}

impl<'a> Model for Results<'a> {
    ghost use Rattle.census_book.specs.Coded.{taken_code};
    ghost use Rattle.census_book.specs.Progress.{Taken};
    ghost use Rattle.census_book.specs.Slots.{KeepsResults, taken_in};

    ghost Value = { Taken };

    ghost coded = { taken_code };

    ghost view = { λ r. record {
      bundle = r.bundle.now;
      question = r.question;
      taken = taken_in r.slots;
    } };

    ghost invariant = { λ r. KeepsResults r.bundle.now r.question r.slots };
}

// True if two texts are the same.
fn same_bytes(one: &[u8], other: &[u8]) -> bool
    ensures { MatchBool result (one.now ≡ other.now) (one.now ≢ other.now) }
{
    one == other
}

impl<'a> Results<'a> {
    /// No results yet.
    pub fn new(
        alloc: Global,
        bundle: &'a Bundle,
        question: Question,
    ) -> Result<Results<'a>, AllocError>
        ensures { IfOk result (λ r. r ≡ taken_of bundle.now question no_tickets) }
    {
        let slots = Slots::new(alloc, bundle.folders())?;
        Ok(Results {
            bundle,
            question,
            slots,
        })
    }

    /// The bundle.
    pub fn bundle(&self) -> &'a Bundle
        ensures { result.now ≡ self.now.bundle }
    {
        self.bundle
    }

    /// The question.
    pub fn question(&self) -> Question
        ensures { result ≡ self.now.question }
    {
        self.question
    }

    /// True if this ticket was taken.
    pub fn holds(&self, ticket: Ticket) -> bool
        ensures { result ≡ has_ticket self.now.taken ticket }
    {
        self.slots.holds(ticket)
    }

    /// The result of this ticket, if it was taken. It may be gone once all tickets of its collection are taken.
    pub fn get(&self, ticket: Ticket) -> Option<&Done<'a>>
        ensures found { IfSome result
            (λ d. IsResult self.now.bundle self.now.question ticket d.now) }
        ensures missing { IfNone result
            (has_ticket self.now.taken ticket ≡ true →
            HasCollection self.now.bundle self.now.taken ticket.folder) }
    {
        self.slots.get(ticket)
    }

    /// The fate of a result that is offered.
    pub fn judge(&self, done: &Done) -> Offer
        ensures { Judged self.now.bundle self.now.question self.now.taken done.now result }
    {
        let ticket = done.ticket();
        let Some(entry) = self.bundle.entry(ticket) else {
            return Offer::Stranger;
        };
        if self.question != done.question() {
            return Offer::Stranger;
        }
        if entry.is_lost != done.entry().is_lost {
            return Offer::Stranger;
        }
        if !same_bytes(entry.text.as_slice(), done.entry().text.as_slice()) {
            return Offer::Stranger;
        }
        if self.holds(ticket) {
            Offer::Double
        } else {
            Offer::Taken
        }
    }

    /// Takes a result. When out of memory, the result is given back.
    pub fn add(&mut self, done: Done<'a>) -> Result<(), NoRoom<'a>>
        requires belongs { IsResultOf self.old.bundle self.old.question done }
        requires new { has_ticket self.old.taken done.ticket ≡ false }
        ensures taken { OnOk result
            (self.new ≡
            taken_of self.old.bundle self.old.question
            (with_ticket self.old.taken done.entry.ticket)) }
        ensures back { IfErr result (λ e. e.done ≡ done.entry) }
        ensures unchanged { OnErr result (self.new ≡ self.old) }
    {
        self.slots.put(done)
    }

    /// Continues with a bundle in which the texts of tickets that were not taken are lost. It takes no memory.
    pub fn lose(&mut self, bundle: &'a Bundle)
        requires { Loses self.old.bundle self.old.taken bundle.now }
        ensures { self.new ≡ taken_of bundle.now self.old.question self.old.taken }
    {
        self.bundle = bundle;
    }

    /// Drops the results of a collection that has arrived whole, and frees their memory. Its tickets stay taken.
    pub fn drop_collection(&mut self, folder: u32)
        requires number { (0 < folder) × (folder ≤ length self.old.bundle) }
        requires whole { HasCollection self.old.bundle self.old.taken folder }
        ensures { self.new ≡ self.old }
    {
        self.slots.drop_results(folder);
    }
}
