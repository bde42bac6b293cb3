//! The format of a report: its lines, the counts of its codes, and the definition of a bundle's report
//! (`specs/Reports.antt`).
//!
//! Tested in `tests_program`.
#![tactic(auto)]

mod closing;
mod codes;
mod engines;
mod found;
mod lines;
mod parts;
mod tail;

pub use closing::push_closing;
pub use codes::{codes_count_objects, codes_count_parts};
pub use found::class_of;
pub use lines::{push_end, push_head, push_open, push_pattern};
pub use tail::push_tail;
