//! Why words ask for nothing that can be done.
ghost use Rattle.clap.specs.Values.{kind_of};
ghost use Rattle.clap.specs.declared.error.kind.ErrorKind.TheVariants.{DisplayVersion, InvalidSubcommand};
ghost use Rattle.census_cli.specs.Refusing.{TellsKind};

use census_facts::VERSION;
use clap::error::ErrorKind;
use std::alloc::{AllocError, AllocFailed, Global};
use thiserror::Error;

/// Why words are not a request. A text is what is to be printed, with its line ends.
#[derive(Debug, PartialEq, Drop, Error)]
pub enum WordsFault {
    /// They ask for help or for the version, and this is its text, for standard output.
    #[error("{0}")]
    Help(String),
    /// They are refused, and this says why. It is for standard error.
    #[error("{0}")]
    Refused(String),
    #[error("out of memory")]
    Memory,
}

impl From<AllocError> for WordsFault {
    ghost use Rattle.std.specs.Prelude.{◌≡◌};
    ghost use Rattle.census_cli.specs.declared.fault.WordsFault.TheVariants.{Memory};

    ghost from_gives = { λ _ fault. fault ≡ Memory };

    fn from(_: AllocError) -> WordsFault {
        WordsFault::Memory
    }
}

impl<T: Drop> From<AllocFailed<T>> for WordsFault {
    ghost use Rattle.std.specs.Prelude.{◌≡◌};
    ghost use Rattle.census_cli.specs.declared.fault.WordsFault.TheVariants.{Memory};

    ghost from_gives = { λ _ fault. fault ≡ Memory };

    fn from(_: AllocFailed<T>) -> WordsFault {
        WordsFault::Memory
    }
}

// What follows the program's version: the logic of the kit that proves it, as `rt version` ends.
const LOGIC: &str = "\nrattle logic dac8208d650f15bf\n";

// The text of the version, to be printed.
fn version_fault(alloc: Global) -> WordsFault
    ensures { TellsKind DisplayVersion result }
{
    let Ok(mut text) = String::from_str(alloc, VERSION) else {
        return WordsFault::Memory;
    };
    match text.push_str(LOGIC) {
        Ok(()) => WordsFault::Help(text),
        Err(_) => WordsFault::Memory,
    }
}

// What is said where a command is not known, since the word is often that of a file.
const FILE_TIP: &str = "\n  tip: 'census identify FILE' tells what the pattern of a file is\n";

// The fault for a command that is not known.
fn refused_command(said: String) -> WordsFault
    ensures { TellsKind InvalidSubcommand result }
{
    let mut text = said;
    match text.push_str(FILE_TIP) {
        Ok(()) => WordsFault::Refused(text),
        Err(_) => WordsFault::Memory,
    }
}

// The fault for an error of clap. The version is reported by its own text, and not by clap's.
pub(crate) fn fault_of(alloc: Global, error: &clap::Error) -> WordsFault
    ensures { TellsKind (kind_of error.now) result }
{
    let text = match format!(in alloc; "{error}") {
        Ok(text) => text,
        Err(_) => return WordsFault::Memory,
    };
    match error.kind() {
        ErrorKind::OutOfMemory => WordsFault::Memory,
        ErrorKind::DisplayHelp => WordsFault::Help(text),
        ErrorKind::DisplayVersion => version_fault(alloc),
        ErrorKind::InvalidSubcommand => refused_command(text),
        _ => WordsFault::Refused(text),
    }
}
