//! Why the program does not do what its arguments ask for, and the exit status of each error.
ghost use Rattle.std.specs.Prelude.{◌≡◌};
ghost use Rattle.census_errors.specs.Messages.{advance_told, draw_told, run_status, status_of};

use crate::advance_error::AdvanceError;
use crate::draw_error::DrawError;
use crate::run_error::RunError;
use std::alloc::AllocError;
use std::io;
use std::io::ErrorKind;
use thiserror::Error;

/// Why the program does not do what its arguments ask for, where that is nothing that is made of reports. Its text is the line on standard error, without `census: `.
#[derive(Clone, Copy, Debug, PartialEq, Eq, Drop, Error)]
pub enum CommandError {
    #[error("{0}")]
    Run(RunError),
    #[error("{0}")]
    Advance(AdvanceError),
    #[error("{0}")]
    Draw(DrawError),
    /// An argument is not text.
    #[error("bad command line")]
    Arguments,
    /// Memory was refused while the arguments were read.
    #[error("out of memory")]
    Memory,
    /// Standard output has failed while help was written.
    #[error("write failed")]
    Write,
}

impl From<RunError> for CommandError {
    ghost use Rattle.std.specs.Prelude.{◌≡◌};
    ghost use Rattle.census_errors.specs.declared.error.CommandError.TheVariants.{Run};

    ghost from_gives = { λ error joined. joined ≡ Run error };

    fn from(error: RunError) -> CommandError {
        CommandError::Run(error)
    }
}

impl From<AdvanceError> for CommandError {
    ghost use Rattle.std.specs.Prelude.{◌≡◌};
    ghost use Rattle.census_errors.specs.declared.error.CommandError.TheVariants.{Advance};

    ghost from_gives = { λ error joined. joined ≡ Advance error };

    fn from(error: AdvanceError) -> CommandError {
        CommandError::Advance(error)
    }
}

impl From<DrawError> for CommandError {
    ghost use Rattle.std.specs.Prelude.{◌≡◌};
    ghost use Rattle.census_errors.specs.declared.error.CommandError.TheVariants.{Draw};

    ghost from_gives = { λ error joined. joined ≡ Draw error };

    fn from(error: DrawError) -> CommandError {
        CommandError::Draw(error)
    }
}

impl From<AllocError> for CommandError {
    ghost use Rattle.std.specs.Prelude.{◌≡◌};
    ghost use Rattle.census_errors.specs.declared.error.CommandError.TheVariants.{Memory};

    ghost from_gives = { λ _ error. error ≡ Memory };

    fn from(_: AllocError) -> CommandError {
        CommandError::Memory
    }
}

impl From<io::Error> for CommandError {
    ghost use Rattle.std.specs.IoError.{error_kind};
    ghost use Rattle.census_errors.specs.Errors.{IsArgumentsError};

    ghost from_gives = { λ error joined. IsArgumentsError (error_kind error) joined };

    /// The error is that of reading the program's arguments.
    fn from(error: io::Error) -> CommandError {
        match error.kind() {
            ErrorKind::OutOfMemory => CommandError::Memory,
            _ => CommandError::Arguments,
        }
    }
}

fn run_status(error: RunError) -> u8
    ensures { result ≡ run_status error }
{
    match error {
        RunError::Bundle(_) | RunError::Folder(_) | RunError::TooLong => 1,
        RunError::Memory { .. } => 3,
        RunError::Read | RunError::Write => 4,
    }
}

fn advance_status(error: AdvanceError) -> u8
    ensures { result ≡ (advance_told error).1 }
{
    match error {
        AdvanceError::Text { .. } | AdvanceError::TooManyCells { .. } | AdvanceError::TooLong => 1,
        AdvanceError::Memory => 3,
        AdvanceError::Read(_) | AdvanceError::Write => 4,
    }
}

fn draw_status(error: DrawError) -> u8
    ensures { result ≡ (draw_told error).1 }
{
    match error {
        DrawError::Rule(_) | DrawError::Code(_) => 1,
        DrawError::Memory => 3,
        DrawError::Write => 4,
    }
}

impl CommandError {
    /// The exit status: 1 where the input is refused, 2 for an argument that is not text, 3 where memory is refused, 4 where a
    /// stream, a folder or a file has failed.
    pub fn status(self) -> u8
        ensures { result ≡ status_of self }
    {
        match self {
            CommandError::Run(error) => run_status(error),
            CommandError::Advance(error) => advance_status(error),
            CommandError::Draw(error) => draw_status(error),
            CommandError::Arguments => 2,
            CommandError::Memory => 3,
            CommandError::Write => 4,
        }
    }
}
