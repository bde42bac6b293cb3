//! Out of memory, with the result that was to be taken.

use crate::done::Done;

/// Out of memory for taking a result, which is given back.
#[derive(Drop)]
pub struct NoRoom<'a> {
    pub done: Done<'a>,
}
