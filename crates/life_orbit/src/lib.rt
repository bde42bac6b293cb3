//! Sets of cells that recur, and whether two of them stay apart for ever.
//!
//! Tested in `tests_objects`.
#![tactic(auto)]

mod ago;
mod back;
mod hull;
mod lanes;
mod meeting;
mod moving;
mod near;
mod orbit;
mod periods;
mod shift;
mod walk;
mod watch;

pub use hull::{Hull, hull_of};
pub use near::are_clear;
pub use orbit::{BOUND_LIMIT, Orbit};
