//! The reasons why collections are not read.

use crate::loss::{Cause, Loss};
use std::alloc::{AllocError, AllocFailed};

/// The reasons why collections are not read.
#[derive(Drop)]
pub enum SourceFault {
    /// Reading ends at the first loss, and this is it.
    Lost(Loss),
    /// Reading ends at the first loss, for this cause, and there was no memory for its path.
    Unnamed(Cause),
    /// There are 65,535 folders before one, or 65,535 files before one in its folder.
    TooMany,
    /// Out of memory.
    Memory,
}

impl From<AllocError> for SourceFault {
    ghost use Rattle.std.specs.Prelude.{◌≡◌};
    ghost use Rattle.census_folders.specs.declared.fault.SourceFault.TheVariants.{Memory};

    ghost from_gives = { λ _ fault. fault ≡ Memory };

    fn from(_: AllocError) -> SourceFault {
        SourceFault::Memory
    }
}

impl<T: Drop> From<AllocFailed<T>> for SourceFault {
    ghost use Rattle.std.specs.Prelude.{◌≡◌};
    ghost use Rattle.census_folders.specs.declared.fault.SourceFault.TheVariants.{Memory};

    ghost from_gives = { λ _ fault. fault ≡ Memory };

    fn from(_: AllocFailed<T>) -> SourceFault {
        SourceFault::Memory
    }
}
