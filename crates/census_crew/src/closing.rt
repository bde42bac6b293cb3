//! Taking back the hands of a deque, and counting the tickets that are left.
ghost use Rattle.std.specs.Prelude.{◌≡◌, ◌<◌, ◌^◌, List, [], ◌∷◌, ◌++◌, length, map, All};
ghost use Rattle.crossbeam_deque.specs.Handles.{stealer_deque, worker_deque, worker_view};
ghost use Rattle.census_crew.specs.declared.item.Item.{Item};
ghost use Rattle.census_crew.specs.Items.{mark_count};
ghost use Rattle.census_crew.specs.Rule.{all_items_of};
ghost use Rattle.census_crew.specs.Fillings.{IsEnding, HasEnded};
ghost use Rattle.census_crew.specs.Feeds.{list_of, AreLeft};

use crate::handles::Hand;
use crate::item::Item;
use crate::turns::{Ends, Owner, Pops};

// Takes over the list of a hand, which ends.
fn end(owner: &mut Owner, hand: Hand)
    requires ending { IsEnding owner.old }
    requires its { stealer_deque hand.stealer ≡ worker_deque owner.old }
    ensures ending { IsEnding owner.new × (worker_deque owner.new ≡ worker_deque owner.old) }
    ensures ended { worker_view owner.new ≡
        record (worker_view owner.old)
        { ended = (worker_view owner.old).ended ++ list_of hand ∷ [] } }
{
    let Hand {
        stealer,
        pass,
        finished: _,
    } = hand;
    owner.absorb::<Ends>(pass);
    drop(stealer);
}

// Takes over the lists of all hands.
pub(crate) fn end_all(owner: &mut Owner, hands: Vec<Hand>)
    requires ending { IsEnding owner.old × ((worker_view owner.old).ended ≡ []) }
    requires its { All (λ h. stealer_deque h.stealer ≡ worker_deque owner.old) hands.items }
    ensures ending { IsEnding owner.new }
    ensures ended { worker_view owner.new ≡
        record (worker_view owner.old) { ended = map list_of hands.items } }
{
    for hand in hands {
        end(owner, hand);
    }
}

// Pops all items that are left, and counts the tickets among them.
pub(crate) fn pop_all(owner: &mut Owner) -> usize
    requires ending { IsEnding owner.old × HasEnded (worker_view owner.old) }
    requires small { length (worker_view owner.old).filled < 2 ^ 62 }
    ensures left { (left : List Item) × (length left ≡ result) ×
        AreLeft (worker_view owner.old).filled (all_items_of (worker_view owner.old).ended) left }
    ensures none { 0 < mark_count (all_items_of (worker_view owner.old).ended) → result ≡ 0 }
{
    let mut left = 0;
    while let Some(item) = owner.pop_as::<Pops>() {
        if let Item::Work(_) = item {
            left += 1;
        }
    }
    left
}
