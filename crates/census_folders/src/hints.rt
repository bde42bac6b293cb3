//! The lines that hint at patterns that may have been overlooked.

use crate::loss::{Losses, OnLoss};
use crate::shelf::Shelf;
use crate::source::Source;
use crate::unread::ShelfFault;
use crate::walking::visit;
use census_bundle::{Bundle, Entry};
use census_faults::{Lines, Words};
use itoa::Buffer;
use memchr::{memchr, memmem};
use std::alloc::{AllocError, Global};

const STRAY: &[u8] =
    b": `@file ` or `@folder ` stands after the `!` of a text, on a line that something else begins: the next pattern may be lost in it";

const PASSED: &[u8] = b"; names passed over that look like patterns: ";

const ENDS: &[u8] = b"; the name of a pattern file must end in `.rle`";

// True where `@file ` or `@folder ` follows the first `!` of a text that isn't lost.
fn may_hold_lines(entry: &Entry) -> bool {
    let text = entry.text.as_slice();
    let after: &[u8] = match memchr(b'!', text) {
        Some(at) => &text[at + 1..],
        None => b"",
    };
    let is_stray = memmem::find(after, b"@file ").is_some()
        || memmem::find(after, b"@folder ").is_some();
    !entry.is_lost && is_stray
}

// Adds the line of a pattern of this collection in whose text the next pattern may be lost.
fn push_stray(
    alloc: Global,
    lines: &mut Lines,
    collection: &[u8],
    entry: &Entry,
) -> Result<(), AllocError> {
    let mut words = Words::none(alloc);
    words.add(collection)?;
    words.add(b"/")?;
    words.add(entry.name.as_slice())?;
    words.add(STRAY)?;
    lines.push(&words)
}

// True where a name looks like that of a pattern, and doesn't end in `.rle`.
fn is_alike(name: &[u8]) -> bool {
    name.ends_with(b".RLE")
        || name.ends_with(b".rle.gz")
        || name.ends_with(b".cells")
        || name.ends_with(b".lif")
        || name.ends_with(b".mc")
}

// The number of such names in a folder, or 0 if it can't be listed.
fn passed_in<S: Shelf>(shelf: &S, alloc: Global, folder: &str) -> Result<usize, AllocError> {
    match shelf.list(alloc, folder) {
        Ok(listing) => {
            let names = listing.as_slice().split(|byte| *byte == 0);
            Ok(names.filter(|name| is_alike(name)).count())
        }
        Err(ShelfFault::Memory) => Err(AllocError),
        Err(ShelfFault::Unread(_) | ShelfFault::TooLong) => Ok(0),
    }
}

// The number of such names in the folders with these paths, and in all folders below them if those are read too.
fn passed_over<S: Shelf>(
    shelf: &S,
    alloc: Global,
    words: &[&str],
    below: bool,
) -> Result<usize, AllocError> {
    let mut folders = Vec::new(alloc);
    for word in words {
        folders.push(String::from_str(alloc, word)?)?;
    }
    let mut lost = Losses::none(alloc);
    let mut passed = 0;
    let mut at = 0;
    while at < folders.len() {
        let folder = folders[at].clone()?;
        passed = passed_in(shelf, alloc, folder.as_str())?.saturating_add(passed);
        if below {
            let keep = OnLoss::Keep;
            let Ok(_) = visit(shelf, alloc, keep, &mut folders, &mut lost, folder.as_str()) else {
                return Err(AllocError);
            };
        }
        at += 1;
    }
    Ok(passed)
}

// Adds the line with the number of collections that have no pattern and, for folders, the number of names that were passed
// over, if there are any.
fn push_note(
    alloc: Global,
    lines: &mut Lines,
    empty: usize,
    passed: Option<usize>,
) -> Result<(), AllocError> {
    if empty == 0 && passed.unwrap_or(0) == 0 {
        return Ok(());
    }
    let mut buffer = Buffer::new();
    let mut words = Words::none(alloc);
    words.add(b"collections without a pattern: ")?;
    words.add(buffer.format(empty).as_bytes())?;
    if let Some(passed) = passed {
        words.add(PASSED)?;
        words.add(buffer.format(passed).as_bytes())?;
        words.add(ENDS)?;
    }
    lines.push(&words)
}

/// Adds the lines that hint at patterns that may have been overlooked in the collections of a bundle. There is one for each
/// pattern in whose text `@file ` or `@folder ` follows the first `!`, as `COLLECTION/NAME: ` and a sentence, in the order of
/// the bundle. One more has the number of collections that have no pattern, and the number of names that were passed over
/// although they look like patterns, which end in `.RLE`, `.rle.gz`, `.cells`, `.lif` or `.mc`; it is left out if there are
/// none of either. A text that is lost is not examined.
///
/// Folders are listed, and names that were passed over reported, only if the bundle was read from folders, whose source is then
/// given. The names are those in the folders of the source, and if the folders below them were read too, those in each of
/// these, whether it became a collection or not. A folder that can't be listed has none.
pub fn push_hints<S: Shelf>(
    shelf: &S,
    alloc: Global,
    lines: &mut Lines,
    bundle: &Bundle,
    source: Option<Source<'_, '_>>,
) -> Result<(), AllocError> {
    let mut empty = 0_usize;
    for folder in bundle.folders() {
        if folder.entries.as_slice().is_empty() {
            empty = empty.saturating_add(1);
        }
        for entry in folder.entries.as_slice() {
            if may_hold_lines(entry) {
                push_stray(alloc, lines, folder.name.as_slice(), entry)?;
            }
        }
    }
    let passed = match source {
        Some(source) => Some(passed_over(shelf, alloc, source.words, source.below)?),
        None => None,
    };
    push_note(alloc, lines, empty, passed)
}
