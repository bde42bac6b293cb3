//! The operations of a hand.
ghost use Rattle.std.specs.Prelude.{◌≡◌, true, [], ◌∷◌, ◌++◌, None, IfSome, IfNone};
ghost use Rattle.crossbeam_deque.specs.Handles.{view, IsPassOf, SamePass, stealer_deque, stealer_flavor};
ghost use Rattle.census_crew.specs.declared.item.Item.TheVariants.{Work};
ghost use Rattle.census_crew.specs.declared.view.Role.TheVariants.{Holder};
ghost use Rattle.census_crew.specs.Items.{mark_count, Rises, has_item, ends_with_mark};
ghost use Rattle.census_crew.specs.Rule.{Stole};
ghost use Rattle.census_crew.specs.Feeds.{list_of, filled_items, SameHand, IsTicketFor, TookMark, OnlyLaterLeft, NoTicketLeft};

use crate::handles::Hand;
use crate::item::Item;
use crate::turns::{HandPass, Steals, Thief};
use census_bundle::Ticket;
use crossbeam_deque::Steal;
use std::sync::Wait;

impl Hand {
    /// The least ticket that is left, which no other hand gets. `None` says that no ticket is left, now or later: the hand then
    /// has an end mark, and returns `None` from then on without looking. It waits while other hands are in its way, and takes
    /// no memory.
    pub fn take<R: Wait>(&mut self, rt: &R) -> Option<Ticket>
        ensures same { SameHand self.old self.new }
        ensures ticket { IfSome result
            (λ t. (list_of self.new ≡ list_of self.old ++ Work t ∷ []) × Rises (list_of self.new) ×
            (has_item (filled_items self.old) (Work t) ≡ true)) }
        ensures bundle { IfSome result (IsTicketFor self.old) }
        ensures least { IfSome result (λ t. OnlyLaterLeft self.new (Work t)) }
        ensures mark { IfNone result (TookMark self.old self.new) }
        ensures none { IfNone result
            ((ends_with_mark (list_of self.new) ≡ true) × NoTicketLeft self.new) }
        ensures over { ends_with_mark (list_of self.old) ≡ true → (result ≡ None) ×
            (self.new ≡ self.old) }
    {
        if self.finished {
            return None;
        }
        match steal(rt, &self.stealer, &mut self.pass) {
            Item::Work(ticket) => Some(ticket),
            Item::Mark(_) => {
                self.finished = true;
                None
            }
        }
    }
}

// Steals until an item comes.
fn steal<R: Wait>(rt: &R, stealer: &Thief, pass: &mut HandPass) -> Item
    requires seated { IsPassOf (stealer_deque stealer.now) pass.old ×
        (stealer_flavor stealer.now ≡ 0) }
    requires holder { (view pass.old).role ≡ Holder }
    requires unmarked { mark_count (view pass.old).taken ≡ 0 }
    ensures same { SamePass pass.old pass.new }
    ensures stole { Stole (view pass.old) (result ∷ []) (view pass.new) }
{
    for _ in rt.forever() {
        match stealer.steal_as::<Steals>(pass) {
            Steal::Success(item) => return item,
            Steal::Empty => unreachable!(),
            Steal::Retry => {}
        }
    }
    unreachable!()
}
