//! Why `advance` writes no text.

use census_faults::{Fault, Spot};
use census_folders::{ShelfFault, Unread};
use life_text::RleFault;
use std::alloc::AllocError;
use thiserror::Error;
use watched::{Failed, ReadFault};

/// Why `advance` did not write the whole text of a generation.
#[derive(Clone, Copy, Debug, PartialEq, Eq, Drop, Error)]
pub enum AdvanceError {
    /// The RLE text has this fault.
    #[error("{fault}")]
    Text {
        fault: RleFault,
        /// What is said of it: the fault, or the kind of the rule that the text's header names.
        told: Fault,
        /// Its place in the text.
        spot: Spot,
    },
    /// This generation is the first that has more cells than the limit.
    #[error("more than {most} cells at generation {generation}")]
    TooManyCells {
        most: u32,
        generation: u32,
    },
    /// There are more bytes than one text may have.
    #[error("input too long")]
    TooLong,
    #[error("out of memory")]
    Memory,
    /// The file can't be read, or standard input has failed.
    #[error("read failed")]
    Read(Unread),
    /// Standard output has failed.
    #[error("write failed")]
    Write,
}

impl From<AllocError> for AdvanceError {
    ghost use Rattle.std.specs.Prelude.{◌≡◌};
    ghost use Rattle.census_errors.specs.declared.advance_error.AdvanceError.TheVariants.{Memory};

    ghost from_gives = { λ _ error. error ≡ Memory };

    fn from(_: AllocError) -> AdvanceError {
        AdvanceError::Memory
    }
}

impl From<ReadFault> for AdvanceError {
    ghost use Rattle.std.specs.Prelude.{◌≡◌};
    ghost use Rattle.census_errors.specs.Errors.{advance_error_of_read};

    ghost from_gives = { λ fault error. error ≡ advance_error_of_read fault };

    fn from(fault: ReadFault) -> AdvanceError {
        match fault {
            ReadFault::Read => AdvanceError::Read(Unread::silent()),
            ReadFault::TooLong => AdvanceError::TooLong,
            ReadFault::Memory => AdvanceError::Memory,
        }
    }
}

impl From<ShelfFault> for AdvanceError {
    ghost use Rattle.std.specs.Prelude.{◌≡◌};
    ghost use Rattle.census_errors.specs.Errors.{advance_error_of_shelf};

    ghost from_gives = { λ fault error. error ≡ advance_error_of_shelf fault };

    fn from(fault: ShelfFault) -> AdvanceError {
        match fault {
            ShelfFault::Unread(why) => AdvanceError::Read(why),
            ShelfFault::TooLong => AdvanceError::TooLong,
            ShelfFault::Memory => AdvanceError::Memory,
        }
    }
}

impl From<Failed> for AdvanceError {
    ghost use Rattle.std.specs.Prelude.{◌≡◌};
    ghost use Rattle.census_errors.specs.declared.advance_error.AdvanceError.TheVariants.{Write};

    ghost from_gives = { λ _ error. error ≡ Write };

    /// It stands for a failure of the writer alone: the reader's failure comes as a `ReadFault`.
    fn from(_: Failed) -> AdvanceError {
        AdvanceError::Write
    }
}
