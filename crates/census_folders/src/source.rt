//! The collections that arguments name.
ghost use Rattle.std.specs.Prelude.{◌≡◌, [], map, string_bytes, IfOk, MatchResult};
ghost use Rattle.census_folders.specs.Sources.{Asked, Reads, Stops, asked_by};
ghost use Rattle.census_folders.specs.Tellings.{Tellings};
ghost use Rattle.census_folders.specs.declared.loss.OnLoss.TheVariants.{Stop};
ghost use Rattle.census_folders.specs.declared.reading.Kept.{Kept};

use crate::fault::SourceFault;
use crate::loss::{Losses, OnLoss};
use crate::reading::{Kept, read_folders};
use crate::shelf::Shelf;
use crate::trees::{Trees, folders_below_each};
use std::alloc::{AllocError, Global};

/// Folders to be read.
#[derive(Clone, Copy)]
pub struct Source<'r, 'a> {
    /// The folders, in their order.
    pub words: &'r [&'a str],
    /// True where the folders below them are read too.
    pub below: bool,
    /// The greatest number of bytes that their files may have in all, where there is a limit.
    pub limit: Option<u64>,
    pub on_loss: OnLoss,
}

/// Owned arguments, borrowed, in their order.
pub fn borrowed_words(alloc: Global, words: &[String]) -> Result<Vec<&str>, AllocError>
    ensures { IfOk result (λ texts.
        map (λ s. s.now) texts.items ≡ map string_bytes words.now) }
{
    let mut texts = Vec::new(alloc);
    for word in words {
        texts.push(word.as_str())?;
    }
    Ok(texts)
}

/// Reads the folders of arguments into a bundle: for each argument, in order, one folder of that name. Its entries are the
/// files in the folder whose names end in `.rle`, under their names and in the order of the bytes of these. Where the folders
/// below are read too, there is one for each folder at or below that of the argument that lists such a name, in the order of
/// the bytes of their paths, each under its path. The path of a folder in another is the path of the other, a slash where that
/// does not end in one, and the name. Links to folders are not followed, and only regular files are opened.
///
/// All folders are found before the first is read. An argument that isn't a lawful name is refused before its folder is listed,
/// and so is folder number 65,536. A folder is listed before its first file is read, and a file is read before its name or its
/// number is refused. Where there is a limit, a file is read only up to the first byte beyond it.
///
/// The losses are: a folder that can't be listed, or in which the folders can't be determined; a folder whose name is not
/// UTF-8, since paths are; a file that can't be read, or has more than 67,108,864 bytes, or more than may still be read; and a
/// folder or a file whose name isn't lawful. Where reading ends at the first loss, that is returned, and nothing after it is
/// opened. Where it continues, a file that can't be read or has too many bytes is a lost entry, a folder that can't be listed
/// is one without entries, and a folder or a file without a lawful name is left out. The losses are listed in order: first
/// those on the way to the folders, then those in them.
///
/// `TooMany` is returned at folder number 65,536, and at file number 65,536 in a folder. `Memory` is returned if memory runs
/// out.
///
/// The shelf may promise the names in a folder and the content of its files. Where it does, the folders that are read, the
/// losses, and the place at which reading ends are exactly as promised. A disk promises nothing.
pub fn read_source<S: Shelf>(
    shelf: &S,
    alloc: Global,
    source: Source<'_, '_>,
) -> Result<Kept, SourceFault>
    ensures { MatchResult result
        (Reads (S.tellings shelf.now) (asked_by source.entry))
        (Stops (S.tellings shelf.now) (asked_by source.entry)) }
{
    let Source {
        words,
        below,
        limit,
        on_loss,
    } = source;
    if !below {
        return read_folders(shelf, alloc, on_loss, words, limit, Losses::none(alloc));
    }
    let Trees { folders, lost } = folders_below_each(shelf, alloc, on_loss, words)?;
    let words = borrowed_words(alloc, folders.as_slice())?;
    read_folders(shelf, alloc, on_loss, words.as_slice(), limit, lost)
}

/// Where reading ends at the first loss, folders that were read have no losses.
pub fn nothing_is_lost_where_reading_ends_at_the_first_loss()
    ensures { (shelf : Tellings) (asked : Asked) (kept : Kept) →
        asked.on_loss ≡ Stop → Reads shelf asked kept → kept.lost ≡ [] }
{}
