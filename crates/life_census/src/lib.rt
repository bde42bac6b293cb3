//! The census of a pattern: the objects that it falls apart into, or the independent parts of these, counted by codes, or the
//! engines by which it grows.
//!
//! Tested in `tests_objects`.
#![tactic(auto)]

mod allowed;
mod answering;
mod code;
mod counted;
mod emitted;
mod field;
mod growing;
mod island;
mod known_set;
mod known_sets;
mod parts;
mod pattern;
mod seen;
mod telling;
mod trend;
mod walk;

pub use answering::answer;
pub use code::code_of;
pub use pattern::census;
pub use trend::rises_steadily;
