//! JSON on lines of its own, and the JSON of objects and of engines.
//!
//! Tested in `tests_reports` and in `tests_objects`.

mod line;
mod told;

pub use line::{json_of, push_value};
pub use told::{counted_value, displacement_value, engines_value};
