//! The independent parts of a set that recurs.
//!
//! Tested in `tests_objects`.

mod orbits;
mod rounds;
mod splitting;

pub use orbits::part_orbits;
pub use splitting::independent_parts;
