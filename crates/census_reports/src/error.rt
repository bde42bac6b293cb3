//! Why reports are not written.
ghost use Rattle.std.specs.Prelude.{◌≡◌};
ghost use Rattle.census_reports.specs.Errors.{status_of, unread_status};

use crate::kind::TextKind;
use census_folders::ShelfFault;
use std::alloc::{AllocError, AllocFailed};
use thiserror::Error;
use watched::Failed;

/// Why what was asked for of reports was not written whole.
#[derive(Clone, Copy, Debug, PartialEq, Eq, Drop, Error)]
pub enum ReportsError {
    /// The text of the claims is not a table of claims.
    #[error("claim fault at line {line}")]
    Claims {
        /// The line on which the first row that is wrong begins, from 1.
        line: usize,
        /// Whether that is the first row, and has a column of names.
        is_named: bool,
    },
    /// The text of the names is not one of names.
    #[error("names fault at line {line}")]
    Names {
        /// The first line that is wrong, from 1.
        line: usize,
    },
    /// A text is neither a report nor several, one after another.
    #[error("report fault at line {line}")]
    Fault {
        /// The number of the text, in the order in which they were read, from 1.
        text: usize,
        /// The first of its lines that is wrong, from 1, or the line that is missing after its last.
        line: usize,
        /// What it is instead, as far as that is known.
        kind: TextKind,
    },
    /// There are more than 65,535 collections.
    #[error("too many collections at report {report}")]
    TooMany {
        /// The first report with which there are too many, from 1, of all the reports of all the texts.
        report: usize,
    },
    /// The text of a file or of standard input was not read, or takes all texts past their limit.
    #[error("{fault}")]
    Unread {
        /// The number of the text, from 1.
        text: usize,
        fault: ShelfFault,
    },
    #[error("out of memory")]
    Memory,
    /// Standard output has failed.
    #[error("write failed")]
    Write,
}

impl From<AllocError> for ReportsError {
    ghost use Rattle.std.specs.Prelude.{◌≡◌};
    ghost use Rattle.census_reports.specs.declared.error.ReportsError.TheVariants.{Memory};

    ghost from_gives = { λ _ error. error ≡ Memory };

    fn from(_: AllocError) -> ReportsError {
        ReportsError::Memory
    }
}

impl<T: Drop> From<AllocFailed<T>> for ReportsError {
    ghost use Rattle.std.specs.Prelude.{◌≡◌};
    ghost use Rattle.census_reports.specs.declared.error.ReportsError.TheVariants.{Memory};

    ghost from_gives = { λ _ error. error ≡ Memory };

    fn from(_: AllocFailed<T>) -> ReportsError {
        ReportsError::Memory
    }
}

impl From<Failed> for ReportsError {
    ghost use Rattle.std.specs.Prelude.{◌≡◌};
    ghost use Rattle.census_reports.specs.declared.error.ReportsError.TheVariants.{Write};

    ghost from_gives = { λ _ error. error ≡ Write };

    /// It stands for a failure of the writer alone: the reader's failure comes as a `ReadFault`.
    fn from(_: Failed) -> ReportsError {
        ReportsError::Write
    }
}

// The exit status where a text is not read.
fn unread_status(fault: ShelfFault) -> u8
    ensures { result ≡ unread_status fault }
{
    match fault {
        ShelfFault::TooLong => 1,
        ShelfFault::Memory => 3,
        ShelfFault::Unread(_) => 4,
    }
}

impl ReportsError {
    /// The exit status: 1 where what was read is refused, 3 out of memory, 4 where a file or a stream has failed.
    pub fn status(self) -> u8
        ensures { result ≡ status_of self }
    {
        match self {
            ReportsError::Claims { .. }
            | ReportsError::Names { .. }
            | ReportsError::Fault { .. }
            | ReportsError::TooMany { .. } => 1,
            ReportsError::Unread { fault, .. } => unread_status(fault),
            ReportsError::Memory => 3,
            ReportsError::Write => 4,
        }
    }
}
