//! Things in space and time in machine integers, whether two of them ever meet, and the lattice of their steps.
//!
//! Tested in `tests_objects`.
#![tactic(auto)]

mod field;
mod four;
mod lattice;
mod meeting;
mod places;
mod refusal;
mod steps;
mod thing;
mod three;
mod together;
mod tries;
mod way;
mod ways;

pub use thing::{TIME_LIMIT, Thing};
pub use way::{WAY_LIMIT, Way, Ways, are_fit};
