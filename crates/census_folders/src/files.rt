//! Pattern files.
ghost use Rattle.std.specs.Prelude.{◌≡◌, ◌<◌, ◌≤◌, Err, Ok, Some, length, vec_len, IfErr, IfOk, MatchResult};
ghost use Rattle.census_bundle.specs.Sizes.{input_limit};
ghost use Rattle.census_folders.specs.Losses.{StopsAt};
ghost use Rattle.census_folders.specs.Paths.{path_of};
ghost use Rattle.census_folders.specs.Reading.{AddsText, IsFullFor, KeepsFile, StopsFile, loss_of};
ghost use Rattle.census_folders.specs.Sums.{Fits, most_of};
ghost use Rattle.census_folders.specs.Told.{GivesTold, RefusesFile};

use crate::fault::SourceFault;
use crate::loss::{Cause, OnLoss, last_place, lose_name, path_of};
use crate::reading::Kept;
use crate::shelf::Shelf;
use crate::sums::{limit_after, most_of};
use crate::unread::{ShelfFault, Unread};
use census_bundle::AddFault;
use std::alloc::Global;

// The bytes of a file in a folder. Only a regular file is opened.
fn read_file<S: Shelf>(
    shelf: &S,
    alloc: Global,
    folder: &str,
    name: &[u8],
    left: Option<u64>,
) -> Result<Vec<u8>, ShelfFault>
    ensures within { IfOk result (λ bytes. vec_len bytes ≤ input_limit) }
    ensures fits { IfOk result (λ bytes. Fits left (vec_len bytes)) }
    ensures told { IfOk result
        (λ bytes. GivesTold ((S.tellings shelf.now).held folder.now name.now) bytes.items) }
    ensures fault { IfErr result
        (RefusesFile (most_of left) ((S.tellings shelf.now).held folder.now name.now)) }
{
    if !shelf.is_file(alloc, folder, name)? {
        return Err(ShelfFault::Unread(Unread::silent()));
    }
    shelf.read(alloc, folder, name, most_of(left))
}

// Adds a pattern file of this text to the last folder. A name that isn't lawful is lost.
fn add_text(
    alloc: Global,
    on_loss: OnLoss,
    kept: &mut Kept,
    folder: &str,
    name: &[u8],
    text: &[u8],
) -> Result<(), SourceFault>
    requires open { 0 < length kept.old.bundle }
    requires fits { Fits kept.old.left (length text.now) }
    ensures { MatchResult result
        (λ _. AddsText on_loss (path_of folder.now name.now) name.now (Ok text.now)
        kept.old kept.new)
        (StopsAt on_loss
        (λ loss. loss_of (path_of folder.now name.now) name.now (Ok text.now) ≡ Some loss)
        (IsFullFor name.now kept.old)) }
{
    match kept.bundle.add_entry(name, text) {
        Ok(()) => {
            kept.left = limit_after(kept.left, text.len());
            Ok(())
        }
        Err(AddFault::BadName) => {
            lose_name(alloc, on_loss, &mut kept.lost, folder, name, Cause::BadName)
        }
        Err(AddFault::Memory) => Err(SourceFault::Memory),
        Err(_) => Err(SourceFault::TooMany),
    }
}

// Adds a pattern file whose text is lost to the last folder, where reading continues. A name that isn't lawful is left out.
fn keep_lost(
    alloc: Global,
    kept: &mut Kept,
    path: &[u8],
    name: &[u8],
    cause: Cause,
) -> Result<(), SourceFault>
    requires { 0 < length kept.old.bundle }
    ensures { MatchResult result
        (λ _. AddsText OnLoss.Keep path.now name.now (Err cause) kept.old kept.new)
        (StopsAt OnLoss.Keep (λ _. ⊥) (IsFullFor name.now kept.old)) }
{
    match kept.bundle.add_lost(name) {
        Ok(()) => {
            let place = last_place(&kept.bundle);
            Ok(kept.lost.add(alloc, path, cause, Some(place))?)
        }
        Err(AddFault::BadName) => Ok(kept.lost.add(alloc, path, cause, None)?),
        Err(AddFault::Memory) => Err(SourceFault::Memory),
        Err(_) => Err(SourceFault::TooMany),
    }
}

// Loses the text of a pattern file: reading ends there, or it is added to the last folder without one.
fn lose_text(
    alloc: Global,
    on_loss: OnLoss,
    kept: &mut Kept,
    folder: &str,
    name: &[u8],
    cause: Cause,
) -> Result<(), SourceFault>
    requires { 0 < length kept.old.bundle }
    ensures { MatchResult result
        (λ _. AddsText on_loss (path_of folder.now name.now) name.now (Err cause)
        kept.old kept.new)
        (StopsAt on_loss
        (λ loss. loss_of (path_of folder.now name.now) name.now (Err cause) ≡ Some loss)
        ((on_loss ≡ OnLoss.Keep) × IsFullFor name.now kept.old)) }
{
    match on_loss {
        OnLoss::Stop => lose_name(alloc, on_loss, &mut kept.lost, folder, name, cause),
        OnLoss::Keep => {
            let path = path_of(alloc, folder, name)?;
            keep_lost(alloc, kept, path.as_slice(), name, cause)
        }
    }
}

// Reads a pattern file of a folder and adds it, under its name, to the last folder.
pub fn add_file<S: Shelf>(
    shelf: &S,
    alloc: Global,
    on_loss: OnLoss,
    kept: &mut Kept,
    folder: &str,
    name: &[u8],
) -> Result<(), SourceFault>
    requires { 0 < length kept.old.bundle }
    ensures { MatchResult result
        (λ _. KeepsFile on_loss ((S.tellings shelf.now).held folder.now name.now) folder.now
        name.now kept.old kept.new)
        (StopsFile on_loss ((S.tellings shelf.now).held folder.now name.now) folder.now
        name.now kept.old) }
{
    match read_file(shelf, alloc, folder, name, kept.left) {
        Ok(text) => add_text(alloc, on_loss, kept, folder, name, text.as_slice()),
        Err(ShelfFault::Unread(why)) => {
            lose_text(alloc, on_loss, kept, folder, name, Cause::Unread(why))
        }
        Err(ShelfFault::TooLong) => lose_text(alloc, on_loss, kept, folder, name, Cause::TooLong),
        Err(ShelfFault::Memory) => Err(SourceFault::Memory),
    }
}
