//! The two ends of a feed.
ghost use Rattle.std.specs.Prelude.{◌≡◌, ◌<◌, ◌^◌, length};
ghost use Rattle.crossbeam_deque.specs.Handles.{view, IsPassOf, stealer_deque, stealer_flavor, worker_view};
ghost use Rattle.census_crew.specs.declared.view.Role.TheVariants.{Holder};
ghost use Rattle.census_crew.specs.Items.{mark_count};
ghost use Rattle.census_crew.specs.Fillings.{IsFilling, Finishes};

use crate::turns::{HandPass, Owner, Thief};

/// The end of a feed that a worker draws tickets from. It can be moved into a thread. A hand that is dropped leaves its
/// feed as it is, but such a feed can no longer be closed.
#[derive(Drop)]
pub struct Hand {
    pub(crate) stealer: Thief,
    pub(crate) pass: HandPass,
    pub(crate) finished: bool,
    ghost seated: { IsPassOf (stealer_deque stealer) pass × (stealer_flavor stealer ≡ 0) },
    ghost holder: { (view pass).role ≡ Holder },
    ghost marked: { Finishes finished (view pass).taken },
}

/// All tickets of a bundle, to be drawn by the hands that came with it.
#[derive(Drop)]
pub struct Feed {
    pub(crate) owner: Owner,
    ghost filled: { IsFilling owner (mark_count (worker_view owner).filled) },
    ghost some_hands: { 0 < mark_count (worker_view owner).filled },
    ghost small: { length (worker_view owner).filled < 2 ^ 62 },
}
