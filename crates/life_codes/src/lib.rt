//! The least Wechsler text of sets of cells in all eight orientations, chosen by the lengths of all texts.
//!
//! Tested in `tests_patterns`.
#![tactic(auto)]

mod choice;
mod grid;
mod keys;
mod least_text;
mod lengths;
mod prefixes;
mod writing;

pub use least_text::LeastText;
pub use prefixes::prefix;
