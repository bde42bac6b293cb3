//! The plane of small patterns: one square of cells, which becomes a plane of tiles where the pattern grows out of it.
//!
//! Tested in `tests_patterns`.
#![tactic(auto)]

mod board;
mod covering;
mod ends;
mod kind;
mod offset;
mod placing;
mod rows;
mod small;
mod standing;

pub use board::Board;
