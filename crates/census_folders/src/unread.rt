//! The reasons why a folder or a file can't be read.

use census_bundle::Text;
use std::alloc::{AllocError, Global};
use std::io;
use thiserror::Error;
use watched::ReadFault;

/// The reason why a folder can't be listed, or a file can't be read.
#[derive(Clone, Copy, Debug, PartialEq, Eq, Drop)]
pub struct Unread {
    /// The number of the system's error, where there is one.
    pub code: Option<i32>,
    /// True where it is a regular file, or a link to one, where a folder is wanted.
    pub is_file: bool,
}

impl Unread {
    ghost use Rattle.std.specs.Prelude.{◌≡◌};
    ghost use Rattle.census_folders.specs.Told.{IsSystemWord, silent};

    /// The cause where the system gives none.
    pub fn silent() -> Unread
        ensures { result ≡ silent }
    {
        Unread {
            code: None,
            is_file: false,
        }
    }

    /// The system's message, or nothing where it has none or there is no memory for it.
    pub fn word(self, alloc: Global) -> Option<Text>
        ensures { IsSystemWord self.code result }
    {
        let error = io::Error::from_raw_os_error(self.code?);
        match format!(in alloc; "{error}") {
            Ok(words) => Text::of(alloc, words.as_bytes()).ok(),
            Err(_) => None,
        }
    }
}

/// The fault of a shelf that returns no list of a folder, or no bytes of a file.
#[derive(Clone, Copy, Debug, PartialEq, Eq, Drop, Error)]
pub enum ShelfFault {
    /// The folder can't be listed, or the file can't be read.
    #[error("read failed")]
    Unread(Unread),
    /// There are more bytes than the limit allows.
    #[error("input too long")]
    TooLong,
    #[error("out of memory")]
    Memory,
}

impl From<AllocError> for ShelfFault {
    ghost use Rattle.std.specs.Prelude.{◌≡◌};
    ghost use Rattle.census_folders.specs.declared.unread.ShelfFault.TheVariants.{Memory};

    ghost from_gives = { λ _ fault. fault ≡ Memory };

    fn from(_: AllocError) -> ShelfFault {
        ShelfFault::Memory
    }
}

impl From<ReadFault> for ShelfFault {
    ghost use Rattle.std.specs.Prelude.{◌≡◌};
    ghost use Rattle.census_folders.specs.Told.{shelf_fault_of};

    ghost from_gives = { λ read fault. fault ≡ shelf_fault_of read };

    /// The number of the system's error is no longer known.
    fn from(fault: ReadFault) -> ShelfFault {
        match fault {
            ReadFault::Read => ShelfFault::Unread(Unread::silent()),
            ReadFault::TooLong => ShelfFault::TooLong,
            ReadFault::Memory => ShelfFault::Memory,
        }
    }
}
