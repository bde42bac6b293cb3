//! The text about one pattern: a block of lines, or a JSON object, that says what it is.
//!
//! Tested in `tests_objects`.

mod block_text;
mod facts;
mod inquiry;
mod known;
mod periods;
mod size;
mod whole;

pub use block_text::{BlockText, block};
pub use inquiry::{HORIZON_LIMIT, Inquiry};
pub use known::{Known, known_of};
pub use whole::Whole;
