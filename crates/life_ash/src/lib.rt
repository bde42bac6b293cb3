//! The objects that a set of cells falls apart into.
//!
//! Tested in `tests_objects`, in part by `life_census`.
#![tactic(auto)]

mod again;
mod ahead;
mod ash_orbits;
mod at_bound;
mod before;
mod far;
mod found;
mod guess;
mod known;
mod limit;
mod living;
mod newcomers;
mod parts;
mod past;
mod pattern;
mod pattern_fate;
mod sizes;
mod stretches;
mod telling;
mod told;
mod whole;

pub use ahead::walk_on;
pub use ash_orbits::{Ash, ash_of};
pub use found::Found;
pub use guess::guessed_parts;
pub use known::Known;
pub use pattern::{fate, fate_past};
pub use pattern_fate::Fate;
