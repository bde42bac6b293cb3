//! The collector of results, which releases the lines of the report.
ghost use Rattle.std.specs.Prelude.{◌≡◌, ◌≤◌, ◌++◌, true, false, length, IfOk, IfErr, OnOk, OnErr, MatchOption};
ghost use Rattle.census_bundle.specs.Tickets.{HasAllTickets, has_ticket, with_ticket};
ghost use Rattle.life_answer.specs.Questions.{IsAnswered};
ghost use Rattle.census_book.specs.Collecting.{IsLeastMissing, IsResultOf, Judged, Offered};
ghost use Rattle.census_book.specs.declared.offer.Offer.TheVariants.{Taken};
ghost use Rattle.census_book.specs.Front.{IsFront, IsRelease};
ghost use Rattle.census_book.specs.Losses.{Loses, over};
ghost use Rattle.census_book.specs.Progress.{sent_of, initial_progress, taken_of};
ghost use Rattle.census_format.specs.Reports.{text_released};

use crate::done::Done;
use crate::front::Front;
use crate::no_room::NoRoom;
use crate::offer::Offer;
use crate::release::{Release, folder_at, push_start, released};
use crate::results::Results;
use census_bundle::{Bundle, Ticket};
use life_answer::Question;
use std::alloc::{AllocError, Global};
use std::marker::Model;
use std::mem::swap;

/// A collector takes the results of a bundle and a question in any order, and releases the lines of its report: those of each
/// collection in their order, and the last line of all when nothing is missing. It is seen as the tickets taken and the text
/// that was released and not yet sent.
#[derive(Drop)]
pub struct Collector<'a> {
    results: Results<'a>,
    front: Front,
    unsent: Vec<u8>,
    // A buffer in which the text that a result releases is made. Between two results only its capacity matters.
    text: Vec<u8>,
    alloc: Global,
}

impl<'a> Model for Collector<'a> {
    ghost use Rattle.census_book.specs.Coded.{progress_code};
    ghost use Rattle.census_book.specs.Front.{IsFront};
    ghost use Rattle.census_book.specs.Progress.{Progress};

    ghost Value = { Progress };

    ghost coded = { progress_code };

    ghost view = { λ s. record {
      bundle = s.results.bundle;
      question = s.results.question;
      taken = s.results.taken;
      unsent = s.unsent.items;
    } };

    ghost invariant = { λ s. IsFront s.results.bundle s.results.taken
        s.front.runs.items s.front.first_open };
}

// Takes a result that belongs and is new, with the text that it releases, and drops the results of its collection if that has
// arrived whole. Memory is allocated before anything changes for good. If nothing is unsent, the text is not copied.
fn accept<'a>(
    results: &mut Results<'a>,
    front: &mut Front,
    unsent: &mut Vec<u8>,
    done: Done<'a>,
    text: &mut Vec<u8>,
    release: Release,
) -> Result<(), NoRoom<'a>>
    requires belongs { IsResultOf results.old.bundle results.old.question done }
    requires new { has_ticket results.old.taken done.ticket ≡ false }
    requires front { IsFront results.old.bundle results.old.taken front.old.runs.items
        front.old.first_open }
    requires release { IsRelease results.old.bundle results.old.question results.old.taken
        front.old.runs.items front.old.first_open done.ticket
        (record { text = text.old.items; run = release.run; first_open = release.first_open }) }
    ensures taken { OnOk result
        (results.new ≡
        taken_of results.old.bundle results.old.question
        (with_ticket results.old.taken done.entry.ticket)) }
    ensures released { OnOk result
        (unsent.new.items ≡
        unsent.old.items ++
        text_released results.old.bundle results.old.question results.old.taken done.entry.ticket) }
    ensures front { IsFront results.new.bundle results.new.taken front.new.runs.items
        front.new.first_open }
    ensures back { IfErr result (λ e. e.done ≡ done.entry) }
    ensures results { OnErr result (results.new ≡ results.old) }
    ensures unsent { OnErr result (unsent.new.items ≡ unsent.old.items) }
{
    let is_first = unsent.is_empty();
    if !is_first && unsent.reserve(text.len()).is_err() {
        return Err(NoRoom { done });
    }
    let number = done.ticket().folder;
    let folder = folder_at(results.bundle().folders(), number);
    results.add(done)?;
    if is_first {
        swap(unsent, text);
    } else {
        let Ok(()) = unsent.extend_from_slice(text) else {
            unreachable!()
        };
    }
    front.runs[number as usize - 1] = release.run;
    front.first_open = release.first_open;
    if release.run as usize == folder.entries.as_slice().len() {
        results.drop_collection(number);
    }
    Ok(())
}

impl<'a> Collector<'a> {
    /// A collector that has taken nothing. It has released the opening line of each collection in order, after that of an empty
    /// one its closing line, and the last line if there is no pattern at all. A bound is 1 to 1,000,000 generations.
    pub fn new(
        alloc: Global,
        bundle: &'a Bundle,
        question: Question,
    ) -> Result<Collector<'a>, AllocError>
        requires { IsAnswered question }
        ensures { IfOk result (λ c. c ≡ initial_progress bundle.now question) }
    {
        let folders = bundle.folders();
        let front = Front::new(alloc, folders)?;
        let mut unsent = Vec::new(alloc);
        push_start(alloc, &mut unsent, folders, question)?;
        let results = Results::new(alloc, bundle, question)?;
        Ok(Collector {
            results,
            front,
            unsent,
            text: Vec::new(alloc),
            alloc,
        })
    }

    /// Offers a result. `Stranger` and `Double` change nothing and take no memory. `Taken` releases the lines of the patterns
    /// up to the end of the longest run of its collection that has arrived. At the collection's end it also releases its `code`
    /// lines and its closing line, and once nothing is missing any more the last line. `NoRoom` is out of memory: it gives back
    /// a result that would have been `Taken`, and changes nothing.
    pub fn offer(&mut self, done: Done<'a>) -> Result<Offer, NoRoom<'a>>
        ensures ok { IfOk result
            (λ o. Offered self.old done.entry self.new o) }
        ensures no_room { IfErr result (λ e. e.done ≡ done.entry) }
        ensures fits { OnErr result
            (Judged self.old.bundle self.old.question self.old.taken done.entry Taken) }
        ensures unchanged { OnErr result (self.new ≡ self.old) }
    {
        match self.results.judge(&done) {
            Offer::Stranger => return Ok(Offer::Stranger),
            Offer::Double => return Ok(Offer::Double),
            Offer::Taken => {}
        }
        let made = released(
            self.alloc,
            &self.results,
            &done,
            &self.front,
            &mut self.text,
        );
        let Ok(release) = made else {
            return Err(NoRoom { done });
        };
        accept(
            &mut self.results,
            &mut self.front,
            &mut self.unsent,
            done,
            &mut self.text,
            release,
        )?;
        Ok(Offer::Taken)
    }

    /// The bundle.
    pub fn bundle(&self) -> &'a Bundle
        ensures { result.now ≡ self.now.bundle }
    {
        self.results.bundle()
    }

    /// The question.
    pub fn question(&self) -> Question
        ensures { result ≡ self.now.question }
    {
        self.results.question()
    }

    /// The text that was released and not yet sent.
    pub fn unsent(&self) -> &[u8]
        ensures { result.now ≡ self.now.unsent }
    {
        self.unsent.as_slice()
    }

    /// Drops the first `count` bytes of the unsent text. It takes no memory.
    pub fn sent(&mut self, count: usize)
        requires { count ≤ length self.old.unsent }
        ensures { self.new ≡ sent_of self.old count }
    {
        self.unsent.drain(..count);
    }

    /// Continues with a bundle in which the texts of tickets that were not taken are lost. The text that was released of it is
    /// the same, and so is all else. It takes no memory.
    pub fn lose(&mut self, bundle: &'a Bundle)
        requires { Loses self.old.bundle self.old.taken bundle.now }
        ensures { self.new ≡ over bundle.now self.old }
    {
        self.results.lose(bundle);
    }

    /// True if this ticket was taken.
    pub fn holds(&self, ticket: Ticket) -> bool
        ensures { result ≡ has_ticket self.now.taken ticket }
    {
        self.results.holds(ticket)
    }

    /// The least ticket that was not taken.
    pub fn missing(&self) -> Option<Ticket>
        ensures { MatchOption result (HasAllTickets self.now.bundle self.now.taken)
            (IsLeastMissing self.now.bundle self.now.taken) }
    {
        let first = self.front.first_open;
        if first == self.results.bundle().folders().len() {
            return None;
        }
        Some(Ticket {
            folder: first as u32 + 1,
            number: self.front.runs[first] + 1,
        })
    }

    /// True if no ticket is missing.
    pub fn is_whole(&self) -> bool
        ensures whole { result ≡ true → HasAllTickets self.now.bundle self.now.taken }
        ensures missing { HasAllTickets self.now.bundle self.now.taken → result ≡ true }
    {
        self.missing().is_none()
    }
}
