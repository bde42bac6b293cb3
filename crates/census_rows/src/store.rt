//! Rows of reports, held in little memory: each takes the bytes of its numbers, the references to its texts, and some 7 bytes
//! more.
//!
//! Tested in `tests_reports`.
mod numbers;
mod page;
mod reading;
mod rows;
mod section;
mod tags;

pub use rows::Rows;
pub use section::Section;
