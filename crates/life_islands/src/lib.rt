//! The sets that belong together in a generation, out of those that make it up: its islands, its places, and the ways to put
//! the cells around them into groups.
//!
//! Each cell has a label, and sets are joined by joining labels. `split` finds the independent parts of a set that recurs in
//! this way.
#![tactic(auto)]

mod around;
mod colours;
mod ends;
mod gathering;
mod inheriting;
mod labels;
mod places;
mod seating;
mod split;
mod touching;

pub use gathering::gathered;
pub use labels::{index_near, numbers};
pub use split::{independent_parts, part_orbits};
