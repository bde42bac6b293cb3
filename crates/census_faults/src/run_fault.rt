//! The reasons why a run ends early, and the reasons why a bundle text was not run to its end.

use census_bundle::{BundleFault, Ticket};
use std::alloc::AllocError;
use thiserror::Error;
use watched::Failed;

/// The reason why a run did not write its whole report. Its output is a prefix of a report.
#[derive(Clone, Copy, Debug, PartialEq, Eq, Drop, Error)]
pub enum RunFault {
    /// Memory ran out. The writer has not failed. If the caller itself was working on a pattern then, or taking its result,
    /// this is the ticket of that pattern.
    #[error("out of memory")]
    Memory { ticket: Option<Ticket> },
    /// The writer has failed.
    #[error("write failed")]
    Write,
}

/// The reason why a bundle text was not run to its end.
#[derive(Clone, Copy, Debug, PartialEq, Eq, Drop, Error)]
pub enum BytesFault {
    /// The reader has failed. Nothing was written.
    #[error("read failed")]
    Read,
    /// The text has more than 67,108,864 bytes. Nothing was written.
    #[error("input too long")]
    TooLong,
    /// The text is not a bundle. Nothing was written.
    #[error("{0}")]
    Bundle(BundleFault),
    /// Memory ran out. The output is a prefix of a report of the bundle, or nothing.
    #[error("out of memory")]
    Memory,
    /// The writer has failed. The output is a prefix of a report of the bundle.
    #[error("write failed")]
    Write,
}

impl RunFault {
    ghost use Rattle.std.specs.Prelude.{◌≡◌, Some};
    ghost use Rattle.census_faults.specs.declared.run_fault.RunFault.TheVariants.{Memory};

    /// The fault that memory ran out while the caller worked on the pattern of this ticket, or took its result.
    pub fn memory_at(ticket: Ticket) -> RunFault
        ensures { result ≡ Memory (Some ticket) }
    {
        RunFault::Memory {
            ticket: Some(ticket),
        }
    }
}

impl From<AllocError> for RunFault {
    ghost use Rattle.std.specs.Prelude.{◌≡◌, None};
    ghost use Rattle.census_faults.specs.declared.run_fault.RunFault.TheVariants.{Memory};

    ghost from_gives = { λ _ fault. fault ≡ Memory None };

    fn from(_: AllocError) -> RunFault {
        RunFault::Memory { ticket: None }
    }
}

impl From<Failed> for RunFault {
    ghost use Rattle.std.specs.Prelude.{◌≡◌};
    ghost use Rattle.census_faults.specs.declared.run_fault.RunFault.TheVariants.{Write};

    ghost from_gives = { λ _ fault. fault ≡ Write };

    fn from(_: Failed) -> RunFault {
        RunFault::Write
    }
}
