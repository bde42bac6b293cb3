//! The folders and files that are lost while folders are read.
ghost use Rattle.std.specs.Prelude.{◌≡◌, IfOk, MatchResult, length, vec_len};
ghost use Rattle.census_folders.specs.Losses.{Loses, StopsAt, last_place, lost_at};
ghost use Rattle.census_folders.specs.Paths.{path_of};

use crate::fault::SourceFault;
use crate::unread::Unread;
use census_bundle::{Bundle, Text, Ticket};
use std::alloc::{AllocError, Global};
use std::marker::Model;

/// The cause of a loss.
#[derive(Clone, Copy, Debug, PartialEq, Eq, Drop)]
pub enum Cause {
    /// The name of a folder or of a file isn't lawful.
    BadName,
    /// A folder can't be listed, or a file can't be read.
    Unread(Unread),
    /// A file has more bytes than the limit.
    TooLong,
}

/// The reaction to a loss.
#[derive(Clone, Copy, Debug, PartialEq, Eq, Drop)]
pub enum OnLoss {
    /// Reading ends there.
    Stop,
    /// Reading continues.
    Keep,
}

/// A folder that can't be listed, a file that can't be read, or a name that isn't lawful.
#[derive(Drop)]
pub struct Loss {
    /// The path of a folder, or that of a file: the folder's path, a slash where that does not end in one, and the name.
    pub path: Text,
    pub cause: Cause,
    /// The entry of a file that can't be read, which has no text.
    pub entry: Option<Ticket>,
}

/// The losses, in order.
#[derive(Drop)]
pub struct Losses {
    items: Vec<Loss>,
}

impl Model for Losses {
    ghost use Rattle.std.specs.Prelude.{List};
    ghost use Rattle.census_folders.specs.declared.loss.Loss.{Loss};

    ghost Value = { List Loss };

    ghost view = { λ l. l.items.items };
}

impl Losses {
    ghost use Rattle.std.specs.Prelude.{◌≡◌, [], ◌∷◌, ◌++◌, OnOk};

    /// No losses. It takes no memory.
    pub fn none(alloc: Global) -> Losses
        ensures { result ≡ [] }
    {
        Losses {
            items: Vec::new(alloc),
        }
    }

    // Adds one more at the end.
    pub(crate) fn add(
        &mut self,
        alloc: Global,
        path: &[u8],
        cause: Cause,
        entry: Option<Ticket>,
    ) -> Result<(), AllocError>
        ensures { OnOk result (self.new ≡
            self.old ++ record { path = path.now; cause = cause; entry = entry } ∷ []) }
    {
        let path = Text::of(alloc, path)?;
        self.items.push(Loss { path, cause, entry })?;
        Ok(())
    }

    /// The losses, in order. It takes no memory.
    pub fn as_slice(&self) -> &[Loss]
        ensures { result.now ≡ self.now }
    {
        self.items.as_slice()
    }
}

// The fault of reading that ends at the loss of this path. The path is kept where there is memory for it.
pub fn stop_at(alloc: Global, path: &[u8], cause: Cause) -> SourceFault
    ensures { StopsAt OnLoss.Stop (λ loss. loss ≡ lost_at path.now cause) ⊥ result }
{
    match Text::of(alloc, path) {
        Ok(path) => SourceFault::Lost(Loss {
            path,
            cause,
            entry: None,
        }),
        Err(_) => SourceFault::Unnamed(cause),
    }
}

// Reports the loss of this path: reading ends there, or has one more loss.
pub fn lose(
    alloc: Global,
    on_loss: OnLoss,
    lost: &mut Losses,
    path: &[u8],
    cause: Cause,
) -> Result<(), SourceFault>
    ensures { MatchResult result
        (λ _. Loses on_loss (lost_at path.now cause) lost.old lost.new)
        (StopsAt on_loss (λ loss. loss ≡ lost_at path.now cause) ⊥) }
{
    match on_loss {
        OnLoss::Stop => Err(stop_at(alloc, path, cause)),
        OnLoss::Keep => Ok(lost.add(alloc, path, cause, None)?),
    }
}

// The path of a name in a folder.
pub fn path_of(alloc: Global, folder: &str, name: &[u8]) -> Result<Vec<u8>, AllocError>
    ensures { IfOk result (λ path. path.items ≡ path_of folder.now name.now) }
{
    let folder = folder.as_bytes();
    let mut path = folder.to_vec(alloc)?;
    if !folder.ends_with(b"/") {
        path.extend_from_slice(b"/")?;
    }
    path.extend_from_slice(name)?;
    Ok(path)
}

// Reports the loss of this name in a folder: reading ends there, or has one more loss.
pub fn lose_name(
    alloc: Global,
    on_loss: OnLoss,
    lost: &mut Losses,
    folder: &str,
    name: &[u8],
    cause: Cause,
) -> Result<(), SourceFault>
    ensures { MatchResult result
        (λ _. Loses on_loss (lost_at (path_of folder.now name.now) cause) lost.old lost.new)
        (StopsAt on_loss (λ loss. loss ≡ lost_at (path_of folder.now name.now) cause) ⊥) }
{
    match (path_of(alloc, folder, name), on_loss) {
        (Ok(path), _) => lose(alloc, on_loss, lost, path.as_slice(), cause),
        (Err(_), OnLoss::Stop) => Err(SourceFault::Unnamed(cause)),
        (Err(_), OnLoss::Keep) => Err(SourceFault::Memory),
    }
}

// The place of the last entry of the last folder.
pub fn last_place(bundle: &Bundle) -> Ticket
    ensures { result ≡ last_place bundle.now }
{
    let folders = bundle.folders();
    match folders {
        [.., last] => Ticket {
            folder: folders.len() as u32,
            number: last.entries.as_slice().len() as u32,
        },
        [] => Ticket {
            folder: 0,
            number: 0,
        },
    }
}
