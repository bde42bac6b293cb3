//! Deciding whether sets that recur make up a set, and stay apart for ever. `onsets` finds the first generation of a pattern
//! that is ash.
//!
//! Tested in `tests_objects`, by `life_census`.
#![tactic(auto)]

mod alone;
mod checks;
mod clearance;
mod onsets;
mod span;
mod sweep;

pub use alone::end_alone;
pub use checks::{are_apart, are_together};
pub use clearance::room;
pub use onsets::{Trail, onset};
