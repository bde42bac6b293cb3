//! Commands that stopped: the error, and its place.
ghost use Rattle.std.specs.Prelude.{◌≡◌};
ghost use Rattle.census_errors.specs.Errors.{run_error_of_run, run_error_of_source};

use crate::error::CommandError;
use crate::place::{Place, kept_place, loss_place, pattern_place};
use crate::run_error::RunError;
use census_bundle::{AddFault, Bundle};
use census_faults::RunFault;
use census_folders::SourceFault;
use std::alloc::Global;

/// A command that stopped.
#[derive(Drop)]
pub struct Stopped {
    pub error: CommandError,
    pub place: Place,
}

impl From<RunStopped> for Stopped {
    ghost use Rattle.std.specs.Prelude.{◌≡◌};
    ghost use Rattle.census_errors.specs.declared.error.CommandError.TheVariants.{Run};

    ghost from_gives = { λ run stopped. stopped ≡ record { error = Run run.error; place = run.place } };

    fn from(stopped: RunStopped) -> Stopped {
        Stopped {
            error: CommandError::Run(stopped.error),
            place: stopped.place,
        }
    }
}

/// A census that stopped.
#[derive(Drop)]
pub struct RunStopped {
    pub error: RunError,
    pub place: Place,
}

impl RunStopped {
    /// Its collections were not read from folders, for this fault. Where there is no memory for the word of the system, or for a
    /// path, it is left out.
    pub fn reading(alloc: Global, fault: SourceFault) -> RunStopped
        ensures { result.error ≡ run_error_of_source fault }
    {
        match fault {
            SourceFault::Lost(loss) => RunStopped {
                error: RunError::from(loss.cause),
                place: loss_place(alloc, Some(loss.path), loss.cause),
            },
            SourceFault::Unnamed(cause) => RunStopped {
                error: RunError::from(cause),
                place: loss_place(alloc, None, cause),
            },
            SourceFault::TooMany => RunStopped {
                error: RunError::Folder(AddFault::TooMany),
                place: Place::nowhere(),
            },
            SourceFault::Memory => RunStopped {
                error: RunError::Memory { ticket: None },
                place: Place::nowhere(),
            },
        }
    }

    /// No whole report of this bundle, which was read from folders, was written. Where memory ran out at a pattern, the place is
    /// the path of that pattern, if there is memory for the path.
    pub fn running(alloc: Global, bundle: &Bundle, fault: RunFault) -> RunStopped
        ensures { result.error ≡ run_error_of_run fault }
    {
        RunStopped {
            error: RunError::from(fault),
            place: pattern_place(alloc, bundle, fault),
        }
    }

    /// No whole report was written of a bundle on standard input, or of none. Its patterns have no paths, so the place is the
    /// numbers of a pattern.
    pub fn unnamed(alloc: Global, error: RunError) -> RunStopped
        ensures { result.error ≡ error }
    {
        RunStopped {
            error,
            place: kept_place(alloc, error),
        }
    }
}
