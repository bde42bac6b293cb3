//! The parts that are one object.

use crate::code::Code;

/// The parts of a pattern that are one object.
#[derive(Drop)]
pub struct Part {
    /// The object's code.
    pub code: Code,
    /// The number of parts that are that object.
    pub count: u64,
}
