//! Filling and closing a feed.
ghost use Rattle.std.specs.Prelude.{◌≡◌, ◌↔◌, ◌≤◌, true, List, [], length, All, IfOk};
ghost use Rattle.census_bundle.specs.declared.ticket.Ticket.{Ticket};
ghost use Rattle.census_bundle.specs.Tickets.{IsTicketOf};
ghost use Rattle.census_crew.specs.declared.item.Item.{Item};
ghost use Rattle.census_crew.specs.declared.item.Item.TheVariants.{Work};
ghost use Rattle.census_crew.specs.Items.{Rises, has_item};
ghost use Rattle.census_crew.specs.Feeds.{list_of, items_of, workers_of, IsFeedOf, AreHandsOf, all_lists, some_finished, AreLeft};
ghost use Rattle.census_bundle.specs.Sizes.{worker_limit};

use crate::closing::{end_all, pop_all};
use crate::filling::{deal, push_marks, push_tickets};
use crate::handles::{Feed, Hand};
use crate::turns::Owner;
use census_bundle::Bundle;
use std::alloc::{AllocError, Global};

impl Feed {
    /// A feed of all tickets of the bundle, in rising order, and 1 to 16 hands that draw from it, one for each worker. After
    /// the tickets comes one end mark for each hand. No hand has taken a ticket. Returns an `AllocError` when out of memory, or
    /// if the deque refuses a push.
    pub fn fill(
        alloc: Global,
        bundle: &Bundle,
        workers: u32,
    ) -> Result<(Feed, Vec<Hand>), AllocError>
        requires workers { (1 ≤ workers) × (workers ≤ worker_limit) }
        ensures feed { IfOk result (λ r. IsFeedOf r.0 bundle.now × (workers_of r.0 ≡ workers)) }
        ensures rising { IfOk result (λ r. Rises (items_of r.0)) }
        ensures tickets { IfOk result
            (λ r. (t : Ticket) →
            (has_item (items_of r.0) (Work t) ≡ true) ↔ IsTicketOf bundle.now t) }
        ensures hands { IfOk result (λ r. AreHandsOf r.0 r.1.items) }
        ensures new { IfOk result (λ r. All (λ h. list_of h ≡ []) r.1.items) }
    {
        let mut owner = Owner::fifo_as(alloc, 64)?;
        push_tickets(&mut owner, bundle)?;
        push_marks(&mut owner, workers)?;
        let hands = deal(&mut owner, alloc, workers)?;
        Ok((Feed { owner }, hands))
    }

    /// The number of tickets that no hand took; they are dropped. The hands are all those of this feed. If one of them has
    /// found that no ticket is left, the number is 0. It takes no memory.
    pub fn close(self, hands: Vec<Hand>) -> usize
        requires { AreHandsOf self hands.items }
        ensures left { (left : List Item) × (length left ≡ result) ×
            AreLeft (items_of self) (all_lists hands.items) left }
        ensures none { some_finished hands.items ≡ true → result ≡ 0 }
    {
        let Feed { mut owner } = self;
        end_all(&mut owner, hands);
        pop_all(&mut owner)
    }
}
