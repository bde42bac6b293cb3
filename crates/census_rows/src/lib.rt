//! The lines of a report, one at a time, and rows held in little memory.
//!
//! Tested in `tests_reports`.
#![tactic(auto)]

mod fields;
mod folding;
mod kinds;
mod numbers;
mod push;
mod read;
mod row;
mod store;
mod values;
mod write;

pub use kinds::{Behind, Class, Label, Value};
pub use push::{push_count, push_field, push_finding};
pub use read::read_row;
pub use row::{Finding, Outcome, Row};
pub use store::{Rows, Section};
pub use values::{ValueReader, Values};
pub use write::put_row;
