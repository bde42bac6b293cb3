//! The ash that a set falls apart into within a bound, as things in space and time: the set's generations before it
//! is ash, and the phases of the parts of that ash.
//!
//! Tested in `tests_objects`.
mod laws;
mod moving;
mod outcome;
mod placing;
mod walk;

pub use laws::{what_settles_falls_apart, what_settles_is_made_of_things};
pub use outcome::Settled;
pub use walk::{falls_apart, settled};
