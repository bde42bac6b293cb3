//! The plane of tiles that stay where they are, in which each step computes only the rows that may change.
//!
//! Tested in `tests_patterns`.
#![tactic(auto)]

mod changed;
mod covering;
mod plane;
mod sameness;
mod standing;
mod tile_store;

pub use plane::TilePlane;
