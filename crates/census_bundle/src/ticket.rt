//! Tickets.
ghost use Rattle.std.specs.Prelude.{◌≡◌};
ghost use Rattle.census_bundle.specs.Tickets.{ticket_cmp};

use std::cmp::Ordering;

/// The place of a pattern: its folder, and its number in that folder, both from 1. Tickets are ordered by folder and
/// then by number.
#[derive(Clone, Copy, Debug, PartialEq, Eq, PartialOrd, Ord)]
pub struct Ticket {
    pub folder: u32,
    pub number: u32,
}

impl Ticket {
    /// The order of two tickets: by folder and then by number. It is the result of `cmp`, as a contract.
    pub fn compare(self, other: Ticket) -> Ordering
        ensures { result ≡ ticket_cmp self other }
    {
        self.cmp(&other)
    }
}
