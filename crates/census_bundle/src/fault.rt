//! The reasons why a bundle text is refused.

use thiserror::Error;

/// The reason why a bundle text is refused. Lines count from 1.
#[derive(Clone, Copy, Debug, PartialEq, Eq, Drop, Error)]
pub enum BundleFault {
    /// There is text other than blanks, tabs and CR on a line that belongs to no entry.
    #[error("bundle fault 1 at line {line}")]
    StrayText { line: usize },
    /// A line that begins with `@file ` comes before the first folder.
    #[error("bundle fault 2 at line {line}")]
    FileBeforeFolder { line: usize },
    /// A line begins with `@`, but with neither `@folder ` nor `@file `.
    #[error("bundle fault 3 at line {line}")]
    BadAtLine { line: usize },
    /// The name on the line isn't lawful.
    #[error("bundle fault 4 at line {line}")]
    BadName { line: usize },
    /// The line begins folder number 65,536, or entry number 65,536 of its folder.
    #[error("bundle fault 5 at line {line}")]
    TooMany { line: usize },
    /// Memory ran out. This may happen before the line of any other fault.
    #[error("out of memory")]
    Memory,
}
