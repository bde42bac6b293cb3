//! The classes of a film's first generation that come back, moved or not, and the cells that leave them on the way.
//! `frames` has the classes of each generation of a film.
//!
//! Tested in `tests_objects`.
#![tactic(auto)]

mod frames;
mod lines;
mod reading;
mod returns;
mod track;
mod tracking;

pub use frames::Film;
pub use track::{Step, Track};
pub use tracking::tracks;
