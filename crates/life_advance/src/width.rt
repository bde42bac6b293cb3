//! The test of whether cells grow so far apart that nothing recurs within a bound.
//!
//! Tested in `tests_objects`.

mod growth;
mod laws;
mod spread;

pub use growth::outgrows;
pub use laws::what_settles_stays_narrow;
