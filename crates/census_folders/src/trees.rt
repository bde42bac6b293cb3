//! The folders at and below several paths.
ghost use Rattle.std.specs.Prelude.{◌≡◌, map, string_bytes, MatchResult};
ghost use Rattle.census_folders.specs.Losses.{StopsAt};
ghost use Rattle.census_folders.specs.Trees.{HoldsTrees, LosesInTrees};

use crate::fault::SourceFault;
use crate::loss::{Losses, OnLoss};
use crate::shelf::Shelf;
use crate::walking::folders_below;
use std::alloc::Global;

/// Folders that were found, and the losses on the way to them.
#[derive(Drop)]
pub struct Trees {
    pub folders: Vec<String>,
    pub lost: Losses,
}

// The folders at and below each of these paths, path by path.
pub fn folders_below_each<S: Shelf>(
    shelf: &S,
    alloc: Global,
    on_loss: OnLoss,
    words: &[&str],
) -> Result<Trees, SourceFault>
    ensures { MatchResult result
        (λ trees. HoldsTrees on_loss (S.tellings shelf.now) (map (λ s. s.now) words.now)
        (map string_bytes trees.folders.items) trees.lost)
        (StopsAt on_loss (LosesInTrees on_loss (S.tellings shelf.now)
        (map (λ s. s.now) words.now)) ⊥) }
{
    let mut folders = Vec::new(alloc);
    let mut lost = Losses::none(alloc);
    for word in words {
        let mut tree = folders_below(shelf, alloc, on_loss, &mut lost, word)?;
        folders.append(&mut tree)?;
    }
    Ok(Trees { folders, lost })
}
