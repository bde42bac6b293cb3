//! The items in the deque of a feed.
use census_bundle::Ticket;

/// A ticket or an end mark. One end mark for each hand comes after all tickets.
#[derive(Clone, Copy, PartialEq, Eq, Debug)]
pub enum Item {
    Work(Ticket),
    Mark(u32),
}
