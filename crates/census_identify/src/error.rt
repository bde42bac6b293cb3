//! The errors that end a report at once.
ghost use Rattle.std.specs.Prelude.{◌≡◌};
ghost use Rattle.census_identify.specs.Errors.{error_line, error_status};

use std::alloc::AllocError;
use thiserror::Error;
use watched::Failed;

/// The errors that end a report at once.
#[derive(Clone, Copy, Debug, PartialEq, Eq, Drop, Error)]
pub enum IdentifyError {
    #[error("out of memory")]
    Memory,
    /// Standard output has failed.
    #[error("write failed")]
    Write,
}

impl From<AllocError> for IdentifyError {
    ghost use Rattle.std.specs.Prelude.{◌≡◌};
    ghost use Rattle.census_identify.specs.declared.error.IdentifyError.TheVariants.{Memory};

    ghost from_gives = { λ _ error. error ≡ Memory };

    fn from(_: AllocError) -> IdentifyError {
        IdentifyError::Memory
    }
}

impl From<Failed> for IdentifyError {
    ghost use Rattle.std.specs.Prelude.{◌≡◌};
    ghost use Rattle.census_identify.specs.declared.error.IdentifyError.TheVariants.{Write};

    ghost from_gives = { λ _ error. error ≡ Write };

    fn from(_: Failed) -> IdentifyError {
        IdentifyError::Write
    }
}

impl IdentifyError {
    /// The line on standard error.
    pub fn line(self) -> &'static str
        ensures { result.now ≡ error_line self }
    {
        match self {
            IdentifyError::Memory => "census: out of memory\n",
            IdentifyError::Write => "census: write failed\n",
        }
    }

    /// The exit status: 3 out of memory, else 4.
    pub fn status(self) -> u8
        ensures { result ≡ error_status self }
    {
        match self {
            IdentifyError::Memory => 3,
            IdentifyError::Write => 4,
        }
    }
}
