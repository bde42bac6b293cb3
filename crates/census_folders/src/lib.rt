//! Folders of pattern files, read into a bundle, hints at patterns that may have been overlooked there, and the content of one
//! file or of standard input.
//!
//! Tested in `tests_program`.
#![tactic(auto)]

mod bytes;
mod disk;
mod fault;
mod files;
mod heard;
mod hints;
mod listing;
mod loss;
mod reading;
mod shelf;
mod source;
mod sums;
mod trees;
mod unread;
mod walking;

pub use bytes::Bytes;
pub use fault::SourceFault;
pub use heard::{Heard, hear, is_input, read_file, words_or_input};
pub use hints::push_hints;
pub use loss::{Cause, Loss, Losses, OnLoss};
pub use reading::Kept;
pub use shelf::Shelf;
pub use source::{
    Source, borrowed_words, nothing_is_lost_where_reading_ends_at_the_first_loss, read_source,
};
pub use unread::{ShelfFault, Unread};
