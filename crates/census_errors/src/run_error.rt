//! Why `run` or `objects` writes no whole report.

use census_bundle::{AddFault, BundleFault, Ticket};
use census_faults::{BytesFault, RunFault};
use census_folders::Cause;
use std::alloc::AllocError;
use thiserror::Error;

/// Why `run` or `objects` did not write its whole report.
#[derive(Clone, Copy, Debug, PartialEq, Eq, Drop, Error)]
pub enum RunError {
    /// The bundle on standard input has this fault.
    #[error("{0}")]
    Bundle(BundleFault),
    /// A folder or a file of it is refused, for its name or for its number.
    #[error("{0}")]
    Folder(AddFault),
    /// Standard input, or a file, has more bytes than one text may have.
    #[error("input too long")]
    TooLong,
    /// Memory was refused. Where this happened while the run worked a pattern itself, this is the ticket of that pattern.
    #[error("out of memory")]
    Memory { ticket: Option<Ticket> },
    /// Standard input has failed, or a folder can't be listed, or a file can't be read.
    #[error("read failed")]
    Read,
    /// Standard output has failed.
    #[error("write failed")]
    Write,
}

impl From<AllocError> for RunError {
    ghost use Rattle.std.specs.Prelude.{◌≡◌, None};
    ghost use Rattle.census_errors.specs.declared.run_error.RunError.TheVariants.{Memory};

    ghost from_gives = { λ _ error. error ≡ Memory None };

    fn from(_: AllocError) -> RunError {
        RunError::Memory { ticket: None }
    }
}

impl From<BytesFault> for RunError {
    ghost use Rattle.std.specs.Prelude.{◌≡◌};
    ghost use Rattle.census_errors.specs.Errors.{run_error_of_bytes};

    ghost from_gives = { λ fault error. error ≡ run_error_of_bytes fault };

    fn from(fault: BytesFault) -> RunError {
        match fault {
            BytesFault::Read => RunError::Read,
            BytesFault::TooLong => RunError::TooLong,
            BytesFault::Bundle(fault) => RunError::Bundle(fault),
            BytesFault::Memory => RunError::Memory { ticket: None },
            BytesFault::Write => RunError::Write,
        }
    }
}

impl From<Cause> for RunError {
    ghost use Rattle.std.specs.Prelude.{◌≡◌};
    ghost use Rattle.census_errors.specs.Errors.{run_error_of_cause};

    ghost from_gives = { λ cause error. error ≡ run_error_of_cause cause };

    fn from(cause: Cause) -> RunError {
        match cause {
            Cause::BadName => RunError::Folder(AddFault::BadName),
            Cause::Unread(_) => RunError::Read,
            Cause::TooLong => RunError::TooLong,
        }
    }
}

impl From<RunFault> for RunError {
    ghost use Rattle.std.specs.Prelude.{◌≡◌};
    ghost use Rattle.census_errors.specs.Errors.{run_error_of_run};

    ghost from_gives = { λ fault error. error ≡ run_error_of_run fault };

    fn from(fault: RunFault) -> RunError {
        match fault {
            RunFault::Memory { ticket } => RunError::Memory { ticket },
            RunFault::Write => RunError::Write,
        }
    }
}
