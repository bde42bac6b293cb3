//! The first generation of a pattern that is ash, where a later generation is ash of known parts.
//!
//! Tested in `tests_objects`.

mod pattern;
mod since;
mod together;
mod trail;

pub use pattern::onset;
pub use trail::Trail;
