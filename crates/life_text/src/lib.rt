//! RLE texts of Life-like patterns.
//!
//! Tested in `tests_patterns`.
#![tactic(auto)]

mod bytes;
mod drawn;
mod header;
mod lines;
mod pattern;
mod pen;
mod rle;
mod token;
mod write;

pub use bytes::{is_blank, is_digit, is_letter};
pub use header::{after_rule_name, after_sizes, drop_blanks, skip_blanks};
pub use life_cells::RuleFault;
pub use pattern::Pattern;
pub use rle::{RleFault, line_end, read_rle, rises, rule_number};
pub use token::skip_spaces;
pub use write::{write_rle, written_texts_are_read};
