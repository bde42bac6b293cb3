//! Faults of RLE texts in words: the place of a fault, and its sentence.
//!
//! Tested in `tests_objects`.

mod bytes;
mod files;
mod header;
mod kinds;
mod line;
mod places;
mod reported;
mod sentences;
mod told;

pub use files::{FileKind, file_kind};
pub use header::rule_in_header;
pub use kinds::{RuleKind, rule_kind};
pub use life_text::RleFault;
pub use line::{line_and_column, place_of};
pub use places::Place;
pub use reported::fault_words;
pub use sentences::{file_sentence, rule_sentence, sentence, words_of};
pub use told::{fault_line, fault_name, place_text};
