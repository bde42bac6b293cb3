//! Reports on single patterns: a block of lines for each text that means one, and a line for each that can't be read or has a
//! fault. `blocks` makes the block of one pattern.
//!
//! Tested in `tests_objects`.
#![tactic(auto)]

mod blocks;
mod course;
mod error;
mod identifying;
mod onlooker;
mod told;

pub use blocks::{BlockText, HORIZON_LIMIT, Inquiry, block};
pub use error::IdentifyError;
pub use identifying::identify;
pub use onlooker::{Onlooker, Unseen};
pub use told::Told;
