//! Facts about a pattern, one after another, as lines or as one JSON object, and names of codes, read from a text. `json` has
//! JSON on lines of its own. `VERSION` is the program's version.
//!
//! Tested in `tests_objects`.
#![tactic(auto)]

mod engines;
mod fact;
mod form;
mod json;
mod lines;
mod names;
mod reading;
mod values;
mod version;

pub use fact::{Fact, Worth};
pub use form::{Form, facts_text};
pub use json::json_of;
pub use names::Names;
pub use reading::read_names;
pub use version::VERSION;
