//! Patterns of reports, compared with each other, to list those that are the same object, and with claims, and patterns of folders
//! that are the same at the start.
#![tactic(auto)]

mod claim;
mod columns;
mod index;
mod lines;
mod listing;
mod notes;
mod place;
mod reading;
mod rows;
mod same;
mod starts;
mod titles;
mod told;
mod tolds;
mod verdict;

pub use columns::{Title, numbers_may_be_claimed};
pub use notes::{compared_line, counted_note};
pub use reading::{Claims, read_claims};
pub use same::put_same;
pub use starts::{least_texts_tell_sets, write_starts};
pub use verdict::put_verdict;
