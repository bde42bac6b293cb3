//! `census merge`, with its promise: of lawful reports it makes a lawful report.
//!
//! Tested in `tests_reports` and `bench/scale`.

mod merge;

pub use merge::merge_reports;
