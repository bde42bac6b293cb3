//! The rule of a feed's deque, and the seven kinds of step that its passes make. The owner's pass is the filler's; each hand
//! has a pass of its own. What a pass knows is its view. Every step must keep the rule, so the rule holds after each step of
//! any interleaving.
//!
//! A push, a steal that takes, a pop that takes, a split and a join change the view of the pass that makes them, as the types
//! below say. A steal or a pop that finds the deque empty, and a steal that is to be tried again, change none.
use crate::item::Item;
use crate::view::View;
use crossbeam_deque::protocol::{Join, Outcome, Protocol, Split};
use crossbeam_deque::{Pass, Stealer, Worker};
use std::alloc::Global;

/// The end of the deque that fills it, and that pops what is left.
pub type Owner = Worker<Item, Global, View, Turns>;

/// The end of the deque that a hand steals from.
pub type Thief = Stealer<Item, Global, View, Turns>;

/// The pass of a hand.
pub type HandPass = Pass<Item, View>;

/// The rule. At the start nothing was pushed, and no hand has begun.
pub struct Turns;

impl Protocol<Item, View> for Turns {
    ghost use Rattle.std.specs.Prelude.{[]};
    ghost use Rattle.census_crew.specs.Rule.{Fed, view_of_filler};

    ghost holds = { Fed };

    ghost first = { view_of_filler [] [] 0 [] };

    // The rule has no room for a second filler, so each pass is split off by `Begins`.
    ghost guest = { view_of_filler [] [] 0 [] };
}

/// A push, before any hand has begun: the filler's view gains the item.
pub struct Pushes;

impl Outcome<Item, View> for Pushes {
    ghost use Rattle.std.specs.Prelude.{◌≡◌};
    ghost use Rattle.census_crew.specs.Rule.{view_after_push};

    ghost then = { λ v xs w. w ≡ view_after_push v xs };
}

/// A hand begins: a pass is split off the filler's. It has taken nothing, and knows what was pushed.
pub struct Begins;

impl Split<View> for Begins {
    ghost use Rattle.census_crew.specs.Rule.{begins_one, new_hand};

    ghost left = { begins_one };

    ghost right = { new_hand };
}

/// A hand's steal: its list gains the item at the front of the deque. A hand that has no end mark never finds the deque
/// empty, since it holds a mark for each hand and no hand takes two.
pub struct Steals;

impl Outcome<Item, View> for Steals {
    ghost use Rattle.census_crew.specs.Rule.{Stole};

    ghost then = { Stole };

    ghost empty = { λ _. ⊥ };
}

/// A hand ends: its pass is joined to the filler's, which takes over its list. The joined pass has the spent view.
pub struct Ends;

impl Join<View> for Ends {
    ghost use Rattle.census_crew.specs.Rule.{ends_one, spent_view};

    ghost both = { ends_one };

    ghost spent = { spent_view };
}

/// A pop, once all hands have ended: what the filler popped gains the item at the front of the deque. If the deque is empty,
/// each item is in one list, once.
pub struct Pops;

impl Outcome<Item, View> for Pops {
    ghost use Rattle.census_crew.specs.Rule.{Popped, AllOut};

    ghost then = { Popped };

    ghost empty = { AllOut };
}
