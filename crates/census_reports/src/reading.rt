//! How texts are read, and what is reported of what was written.
use census_merge::Cut;

/// How texts are read.
#[derive(Clone, Copy, Debug, PartialEq, Eq)]
pub struct Reading {
    /// Whether a text that was cut is mended before it is looked at.
    pub cut: bool,
    /// The most bytes of all texts together, where there is a limit.
    pub limit: Option<u64>,
}

/// What is reported of what was written.
#[derive(Drop)]
pub struct Written {
    /// Whether what was looked for was found.
    pub found: bool,
    /// The cuts of the texts that were cut, in their order.
    pub cuts: Vec<Cut>,
}
