//! A result in addition to those that were taken before.
ghost use Rattle.std.specs.Prelude.{◌≡◌, true, false};
ghost use Rattle.census_bundle.specs.Tickets.{has_ticket};
ghost use Rattle.census_book.specs.Collecting.{IsResult, IsResultOf};
ghost use Rattle.census_book.specs.Progress.{arrived_of};

use crate::done::Done;
use crate::results::Results;
use census_bundle::{Bundle, Ticket};
use life_answer::Question;
use std::marker::Model;

/// A result that is to be taken, in addition to those that were. It is seen as the tickets of all of them, and its own
/// collection.
#[derive(Drop)]
pub struct Arrival<'r, 'a> {
    results: &'r Results<'a>,
    done: &'r Done<'a>,
}

impl<'r, 'a> Model for Arrival<'r, 'a> {
    ghost use Rattle.std.specs.Prelude.{◌≡◌, false};
    ghost use Rattle.census_bundle.specs.Tickets.{has_ticket};
    ghost use Rattle.census_book.specs.Coded.{arrived_code};
    ghost use Rattle.census_book.specs.Collecting.{IsResultOf};
    ghost use Rattle.census_book.specs.Progress.{Arrived, arrived_of};

    ghost Value = { Arrived };

    ghost coded = { arrived_code };

    ghost view = { λ a. arrived_of a.results.now a.done.now.ticket };

    ghost invariant = { λ a. IsResultOf a.results.now.bundle a.results.now.question a.done.now
        × (has_ticket a.results.now.taken a.done.now.ticket ≡ false) };
}

impl<'r, 'a> Arrival<'r, 'a> {
    /// A result that belongs to the bundle and the question, and is new.
    pub fn new(results: &'r Results<'a>, done: &'r Done<'a>) -> Arrival<'r, 'a>
        requires belongs { IsResultOf results.now.bundle results.now.question done.now }
        requires new { has_ticket results.now.taken done.now.ticket ≡ false }
        ensures { result ≡ arrived_of results.now done.now.ticket }
    {
        Arrival { results, done }
    }

    /// The bundle.
    pub fn bundle(&self) -> &'a Bundle
        ensures { result.now ≡ self.now.bundle }
    {
        self.results.bundle()
    }

    /// The question.
    pub fn question(&self) -> Question
        ensures { result ≡ self.now.question }
    {
        self.results.question()
    }

    /// True if this ticket was taken or is to be taken.
    pub fn holds(&self, ticket: Ticket) -> bool
        ensures { result ≡ has_ticket self.now.taken ticket }
    {
        let own = self.done.ticket();
        if ticket.folder != own.folder {
            return self.results.holds(ticket);
        }
        if ticket.number != own.number {
            return self.results.holds(ticket);
        }
        true
    }

    /// The result of this ticket, whose collection is that of the result to be taken.
    pub fn get(&self, ticket: Ticket) -> &'r Done<'a>
        requires taken { has_ticket self.now.taken ticket ≡ true }
        requires own { ticket.folder ≡ self.now.folder }
        ensures { IsResult self.now.bundle self.now.question ticket result.now }
    {
        let own = self.done.ticket();
        if ticket.folder == own.folder && ticket.number == own.number {
            return self.done;
        }
        self.results.get(ticket).unwrap_or(self.done)
    }
}
