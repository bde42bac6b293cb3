//! The lines that explain the patterns that a report of a bundle gives as refused.

use crate::fault::Fault;
use crate::lines::{Lines, Words};
use crate::rle::{place_text, words_of};
use crate::sentences::sentence;
use census_bundle::{Bundle, Entry, Folder, Ticket};
use life_text::{RleFault, read_rle};
use std::alloc::{AllocError, Global};

// Adds the explanation of the fault of a text: its place, and the sentence.
fn add_fault(words: &mut Words, text: &[u8], fault: RleFault) -> Result<(), AllocError> {
    words.add(b":")?;
    words.add(place_text(text, fault).as_str().as_bytes())?;
    words.add(words_of(text, fault).as_bytes())
}

// Adds the line of a pattern that is lost, for this reason, or refused, and nothing for any other.
fn push_entry(
    alloc: Global,
    lines: &mut Lines,
    collection: &[u8],
    entry: &Entry,
    loss: Fault,
) -> Result<(), AllocError> {
    let mut words = Words::none(alloc);
    words.add(collection)?;
    words.add(b"/")?;
    words.add(entry.name.as_slice())?;
    if entry.is_lost {
        words.add(b": ")?;
        words.add(sentence(loss).as_bytes())?;
        return lines.push(&words);
    }
    let text = entry.text.as_slice();
    match read_rle(alloc, text) {
        Ok(_) => Ok(()),
        Err(RleFault::Memory) => Err(AllocError),
        Err(fault) => {
            add_fault(&mut words, text, fault)?;
            lines.push(&words)
        }
    }
}

// These tickets without the first, if that is the one of this pattern of this folder. Both numbers count from 1.
fn after_first(tickets: &[Ticket], folder: usize, number: usize) -> Option<&[Ticket]> {
    match tickets {
        [first, rest @ ..] => {
            if first.folder as usize == folder && first.number as usize == number {
                Some(rest)
            } else {
                None
            }
        }
        [] => None,
    }
}

// Adds the lines of a folder, whose number counts from 1. Returns those of these tickets, which are in order, that come after
// the folder.
fn push_folder<'a>(
    alloc: Global,
    lines: &mut Lines,
    folder: &Folder,
    number: usize,
    too_long: &'a [Ticket],
) -> Result<&'a [Ticket], AllocError> {
    let mut left = too_long;
    let entries = folder.entries.as_slice();
    for index in 0..entries.len() {
        let loss = match after_first(left, number, index + 1) {
            Some(rest) => {
                left = rest;
                Fault::TooLong
            }
            None => Fault::Read,
        };
        push_entry(alloc, lines, folder.name.as_slice(), &entries[index], loss)?;
    }
    Ok(left)
}

/// The lines that explain the patterns that a report of a bundle gives as `bad`, one for each such line of it, collection by
/// collection, and within each in the order of its patterns: `COLLECTION/NAME:LINE:COLUMN: ` and the sentence for the text's
/// fault, or for a text that is lost `COLLECTION/NAME: ` and the sentence for one that can't be read, or, for those with these
/// tickets, for one that is too long. The tickets are in their order.
pub fn refusal_lines(
    alloc: Global,
    bundle: &Bundle,
    too_long: &[Ticket],
) -> Result<Lines, AllocError> {
    let mut lines = Lines::none(alloc);
    let mut left = too_long;
    let folders = bundle.folders();
    for index in 0..folders.len() {
        left = push_folder(alloc, &mut lines, &folders[index], index + 1, left)?;
    }
    Ok(lines)
}
