//! Reading folders of pattern files.
ghost use Rattle.std.specs.Prelude.{◌≡◌, ◌<◌, length, map, MatchResult};
ghost use Rattle.std.specs.List.{FoldsTo};
ghost use Rattle.census_folders.specs.Reading.{FillsFolder, KeepsFolder, StopsFilling, StopsFolder, kept_at_start};
ghost use Rattle.census_folders.specs.Losses.{EndsAmong};

use crate::fault::SourceFault;
use crate::files::add_file;
use crate::listing::pattern_names;
use crate::loss::{Cause, Losses, OnLoss, lose};
use crate::shelf::Shelf;
use crate::unread::ShelfFault;
use census_bundle::{AddFault, Bundle};
use std::alloc::Global;

/// Folders that were read, and the losses.
#[derive(Drop)]
pub struct Kept {
    pub bundle: Bundle,
    pub lost: Losses,
    /// The number of bytes that may still be read, where there is a limit.
    pub left: Option<u64>,
}

// Adds the pattern files of a folder to the last folder, which has its name.
fn fill_folder<S: Shelf>(
    shelf: &S,
    alloc: Global,
    on_loss: OnLoss,
    kept: &mut Kept,
    word: &str,
) -> Result<(), SourceFault>
    requires { 0 < length kept.old.bundle }
    ensures { MatchResult result
        (λ _. FillsFolder on_loss (S.tellings shelf.now) word.now kept.old kept.new)
        (StopsFilling on_loss (S.tellings shelf.now) word.now kept.old) }
{
    let listing = match shelf.list(alloc, word) {
        Ok(listing) => listing,
        Err(ShelfFault::Unread(why)) => {
            return lose(
                alloc,
                on_loss,
                &mut kept.lost,
                word.as_bytes(),
                Cause::Unread(why),
            );
        }
        Err(_) => return Err(SourceFault::Memory),
    };
    let names = pattern_names(alloc, listing.as_slice())?;
    for name in &names {
        add_file(shelf, alloc, on_loss, kept, word, name.as_slice())?;
    }
    Ok(())
}

// Adds the folder with this path, with its pattern files.
fn add_folder<S: Shelf>(
    shelf: &S,
    alloc: Global,
    on_loss: OnLoss,
    kept: &mut Kept,
    word: &str,
) -> Result<(), SourceFault>
    ensures { MatchResult result
        (λ _. KeepsFolder on_loss (S.tellings shelf.now) kept.old word.now kept.new)
        (StopsFolder on_loss (S.tellings shelf.now) kept.old word.now) }
{
    match kept.bundle.add_folder(word.as_bytes()) {
        Ok(()) => fill_folder(shelf, alloc, on_loss, kept, word),
        Err(AddFault::BadName) => {
            lose(
                alloc,
                on_loss,
                &mut kept.lost,
                word.as_bytes(),
                Cause::BadName,
            )
        }
        Err(AddFault::Memory) => Err(SourceFault::Memory),
        Err(_) => Err(SourceFault::TooMany),
    }
}

// Reads the folders with these paths into a bundle. `way` has the losses on the way to them.
pub fn read_folders<S: Shelf>(
    shelf: &S,
    alloc: Global,
    on_loss: OnLoss,
    folders: &[&str],
    limit: Option<u64>,
    way: Losses,
) -> Result<Kept, SourceFault>
    ensures { MatchResult result
        (FoldsTo (KeepsFolder on_loss (S.tellings shelf.now)) (kept_at_start limit way)
        (map (λ s. s.now) folders.now))
        (EndsAmong (KeepsFolder on_loss (S.tellings shelf.now)) (StopsFolder on_loss (S.tellings shelf.now))
        (kept_at_start limit way) (map (λ s. s.now) folders.now)) }
{
    let mut kept = Kept {
        bundle: Bundle::empty(alloc),
        lost: way,
        left: limit,
    };
    for word in folders {
        add_folder(shelf, alloc, on_loss, &mut kept, word)?;
    }
    Ok(kept)
}
