//! Reports read back: whether a text is one report or several, and which rows it has.
//!
//! Tested in `tests_reports`.
#![tactic(auto)]

mod code;
mod counts;
mod engines;
mod following;
mod lawful;
mod limits;
mod lines;
mod place;
mod progress;
mod reading;
mod rules;
mod sectioning;
mod sums;
mod told;

pub use following::{emits_first, rows_behind};
pub use limits::COUNT_LIMIT;
pub use lines::{First, behind_line, first_row};
pub use progress::{collection_of, patterns_opened};
pub use reading::{fault_of, read_report};
pub use sectioning::{Sections, collections};
