//! Reports that are read from files or from standard input, and written as one report, as a table, as a page, as the
//! patterns that are one object, or as what does not agree with claims. `lawful` has what `census merge` promises.
//!
//! Tested in `tests_reports`.
#![tactic(auto)]

mod error;
mod form;
mod kind;
mod lawful;
mod limit;
mod looking;
mod merged;
mod reading;
mod reports;
mod rows;
mod words;

pub use error::ReportsError;
pub use form::Form;
pub use kind::TextKind;
pub use lawful::merge_reports;
pub use reading::{Reading, Written};
pub use reports::write_reports;
pub use words::read_text;
