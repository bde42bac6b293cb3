//! Lines and columns.

/// A line and a column of a text, both counted from 1. The column counts bytes.
#[derive(Clone, Copy, Debug, PartialEq, Eq, Drop)]
pub struct Place {
    pub line: u64,
    pub column: u64,
}
