//! The folders at and below a folder.
ghost use Rattle.std.specs.Prelude.{◌≡◌, ◌++◌, ◌∷◌, [], Err, OnOk, IfErr, IfOk, IsErr, MatchResult, map, string_bytes};
ghost use Rattle.std.specs.List.{filter};
ghost use Rattle.std.specs.Str.{is_utf8};
ghost use Rattle.census_folders.specs.Losses.{IsFirst, StopsAt, lost_at};
ghost use Rattle.census_folders.specs.Paths.{is_any, names_in, path_of};
ghost use Rattle.census_folders.specs.Walks.{AddsVisit, AreAllowed, GivesNames, HoldsTree, IsFirstInner, IsUnread};
ghost use Rattle.census_folders.specs.Walks.{LosesInTree, LosesVisit, inner_paths, is_taken, lost_in, lost_names, names_given};

use crate::fault::SourceFault;
use crate::listing::{pattern_names, split_name};
use crate::loss::{Cause, Losses, OnLoss, lose_name, stop_at};
use crate::shelf::Shelf;
use crate::unread::{ShelfFault, Unread};
use std::alloc::{AllocError, Global};

// The path of a name in a folder.
fn path_in(alloc: Global, folder: &str, name: &str) -> Result<String, AllocError>
    ensures { IfOk result (λ path. string_bytes path ≡ path_of folder.now name.now) }
{
    let mut path = String::from_str(alloc, folder)?;
    if !folder.as_bytes().ends_with(b"/") {
        path.push_str("/")?;
    }
    path.push_str(name)?;
    Ok(path)
}

// True where a name is not empty.
fn is_any(name: &[u8]) -> bool
    ensures { result ≡ is_any name.now }
{
    name.len() >= 1
}

// Adds the path of a folder of a folder to those that were found. It is a loss where its name is not UTF-8, since paths are.
fn add_name(
    alloc: Global,
    on_loss: OnLoss,
    found: &mut Vec<String>,
    lost: &mut Losses,
    folder: &str,
    name: &[u8],
) -> Result<(), SourceFault>
    ensures added { OnOk result
        (map string_bytes found.new.items ≡
        map string_bytes found.old.items ++
        map (path_of folder.now) (filter is_utf8 (name.now ∷ []))) }
    ensures told { OnOk result
        (lost.new ≡ lost.old ++ lost_names folder.now (name.now ∷ [])) }
    ensures allowed { OnOk result (AreAllowed on_loss (lost_names folder.now (name.now ∷ []))) }
    ensures fault { IfErr result
        (StopsAt on_loss (IsFirst (lost_names folder.now (name.now ∷ []))) ⊥) }
{
    match str::from_utf8(name) {
        Ok(name) => {
            found.push(path_in(alloc, folder, name)?)?;
            Ok(())
        }
        Err(_) => {
            let cause = Cause::Unread(Unread::silent());
            lose_name(alloc, on_loss, lost, folder, name, cause)?;
            Ok(())
        }
    }
}

// Adds the paths of these folders of a folder to those that were found. A byte 0 ends each name.
fn add_names(
    alloc: Global,
    on_loss: OnLoss,
    found: &mut Vec<String>,
    lost: &mut Losses,
    folder: &str,
    folders: &[u8],
) -> Result<(), SourceFault>
    ensures added { OnOk result
        (map string_bytes found.new.items ≡
        map string_bytes found.old.items ++
        map (path_of folder.now) (filter is_utf8 (names_in folders.now))) }
    ensures told { OnOk result
        (lost.new ≡ lost.old ++ lost_names folder.now (names_in folders.now)) }
    ensures allowed { OnOk result
        (AreAllowed on_loss (lost_names folder.now (names_in folders.now))) }
    ensures fault { IfErr result
        (StopsAt on_loss (IsFirst (lost_names folder.now (names_in folders.now))) ⊥) }
{
    let mut left = Some(folders);
    while let Some(rest) = left {
        let (name, behind) = split_name(rest);
        if is_any(name) {
            add_name(alloc, on_loss, found, lost, folder, name)?;
        }
        left = behind;
    }
    Ok(())
}

// Ends the walk at a folder that can't be read, or continues without it.
fn pass(
    alloc: Global,
    on_loss: OnLoss,
    folder: &str,
    why: Unread,
) -> Result<Result<Vec<u8>, Unread>, SourceFault>
    ensures { MatchResult result
        (λ names. (on_loss ≡ OnLoss.Keep) × (names ≡ Err why))
        (StopsAt on_loss (λ loss. loss ≡ lost_at folder.now (Cause.Unread why)) ⊥) }
{
    match on_loss {
        OnLoss::Stop => Err(stop_at(alloc, folder.as_bytes(), Cause::Unread(why))),
        OnLoss::Keep => Ok(Err(why)),
    }
}

// The list of a folder. Where it can't be listed, the walk ends there, or continues.
fn list_in<S: Shelf>(
    shelf: &S,
    alloc: Global,
    on_loss: OnLoss,
    folder: &str,
) -> Result<Result<Vec<u8>, Unread>, SourceFault>
    ensures { MatchResult result
        (λ names. GivesNames on_loss ((S.tellings shelf.now).listed folder.now)
        (names_given names))
        (StopsAt on_loss (IsUnread ((S.tellings shelf.now).listed folder.now) folder.now) ⊥) }
{
    match shelf.list(alloc, folder) {
        Ok(listing) => Ok(Ok(listing)),
        Err(ShelfFault::Unread(why)) => pass(alloc, on_loss, folder, why),
        Err(_) => Err(SourceFault::Memory),
    }
}

// The names of the folders in a folder. Where they can't be determined, the walk ends there, or continues.
fn list_folders_in<S: Shelf>(
    shelf: &S,
    alloc: Global,
    on_loss: OnLoss,
    folder: &str,
) -> Result<Result<Vec<u8>, Unread>, SourceFault>
    ensures { MatchResult result
        (λ names. GivesNames on_loss ((S.tellings shelf.now).inner folder.now)
        (names_given names))
        (StopsAt on_loss (IsUnread ((S.tellings shelf.now).inner folder.now) folder.now) ⊥) }
{
    match shelf.list_folders(alloc, folder) {
        Ok(folders) => Ok(Ok(folders)),
        Err(ShelfFault::Unread(why)) => pass(alloc, on_loss, folder, why),
        Err(_) => Err(SourceFault::Memory),
    }
}

// True where a folder with this listing is taken: it can't be listed, or lists a name that ends in `.rle`.
fn is_taken(alloc: Global, listing: &Result<Vec<u8>, Unread>) -> Result<bool, AllocError>
    ensures { IfOk result (λ taken. taken ≡ is_taken (names_given listing.now)) }
{
    match listing {
        Ok(listing) => {
            let names = pattern_names(alloc, listing.as_slice())?;
            Ok(names.len() >= 1)
        }
        Err(_) => Ok(true),
    }
}

// Adds the folders of a folder with this listing to those that were found. Where they can't be determined, and the walk
// continues, the folder is lost, unless it can't be listed either.
fn add_folders(
    alloc: Global,
    on_loss: OnLoss,
    found: &mut Vec<String>,
    lost: &mut Losses,
    folder: &str,
    listing: &Result<Vec<u8>, Unread>,
    folders: &Result<Vec<u8>, Unread>,
) -> Result<(), SourceFault>
    requires { IsErr folders.now → on_loss ≡ OnLoss.Keep }
    ensures added { OnOk result
        (map string_bytes found.new.items ≡
        map string_bytes found.old.items ++ inner_paths folder.now (names_given folders.now)) }
    ensures told { OnOk result
        (lost.new ≡
        lost.old ++ lost_in (names_given listing.now) folder.now (names_given folders.now)) }
    ensures allowed { OnOk result
        (AreAllowed on_loss
        (lost_in (names_given listing.now) folder.now (names_given folders.now))) }
    ensures fault { IfErr result
        (StopsAt on_loss (IsFirstInner folder.now (names_given folders.now)) ⊥) }
{
    match (listing, folders) {
        (_, Ok(folders)) => { add_names(alloc, on_loss, found, lost, folder, folders.as_slice()) }
        (Ok(_), Err(why)) => Ok(lost.add(alloc, folder.as_bytes(), Cause::Unread(*why), None)?),
        (Err(_), Err(_)) => Ok(()),
    }
}

// Adds the folders of a folder to those that were found. Returns true if the folder is taken.
pub(crate) fn visit<S: Shelf>(
    shelf: &S,
    alloc: Global,
    on_loss: OnLoss,
    found: &mut Vec<String>,
    lost: &mut Losses,
    folder: &str,
) -> Result<bool, SourceFault>
    ensures { MatchResult result
        (AddsVisit on_loss (S.tellings shelf.now) folder.now
        (map string_bytes found.old.items) (map string_bytes found.new.items) lost.old lost.new)
        (StopsAt on_loss (LosesVisit (S.tellings shelf.now) folder.now) ⊥) }
{
    let listing = list_in(shelf, alloc, on_loss, folder)?;
    let folders = list_folders_in(shelf, alloc, on_loss, folder)?;
    add_folders(alloc, on_loss, found, lost, folder, &listing, &folders)?;
    Ok(is_taken(alloc, &listing)?)
}

// The folders at and below this one that list at least one name that ends in `.rle`, in the order of their paths' bytes. The
// path of a folder in another is the path of the other, a slash where that does not end in one, and the name; so each path
// begins with `word`. Links to folders are not followed.
//
// The walk ends at a folder that can't be listed, or in which the folders can't be determined, and at a folder whose name is not
// UTF-8; or it continues. Then a folder that can't be listed is among those returned, and the others are lost.
pub fn folders_below<S: Shelf>(
    shelf: &S,
    alloc: Global,
    on_loss: OnLoss,
    lost: &mut Losses,
    word: &str,
) -> Result<Vec<String>, SourceFault>
    ensures { MatchResult result
        (λ folders. HoldsTree on_loss (S.tellings shelf.now) word.now
        (map string_bytes folders.items) lost.old lost.new)
        (StopsAt on_loss (LosesInTree on_loss (S.tellings shelf.now) word.now) ⊥) }
{
    let mut found = Vec::new(alloc);
    found.push(String::from_str(alloc, word)?)?;
    let mut chosen = Vec::new(alloc);
    let mut at = 0;
    while at < found.len() {
        let folder = found[at].clone()?;
        if visit(shelf, alloc, on_loss, &mut found, lost, folder.as_str())? {
            chosen.push(folder)?;
        }
        at += 1;
    }
    chosen.sort()?;
    Ok(chosen)
}
