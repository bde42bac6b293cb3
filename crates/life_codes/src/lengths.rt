//! The lengths of the Wechsler texts of sets of cells in all eight orientations, computed from words of bits.
//!
//! Tested in `tests_patterns`.
mod frame;
mod marks;
mod measure;
mod narrow;
mod wide_marks;
mod wide_words;
mod words;

pub use frame::{Frame, frame_of, place_in};
pub use measure::Lengths;
pub use wide_marks::WideMarks;
pub use wide_words::wide_lengths;
pub use words::{FourLengths, four_lengths};
