//! The place of something that can't be read or is refused.

use crate::advance_error::AdvanceError;
use crate::run_error::RunError;
use arrayvec::ArrayString;
use census_bundle::{Bundle, Text, Ticket};
use census_faults::RunFault;
use census_folders::{Cause, Unread};
use itoa::Buffer;
use std::alloc::Global;

/// The most bytes of the numbers of a pattern and of its collection.
const NUMBERS_LIMIT: usize = 48;

/// What is known of the place of something that can't be read, or is refused.
#[derive(Drop)]
pub struct Place {
    /// The path of the file, of the folder or of the pattern; or the numbers of a pattern that has none.
    pub path: Option<Text>,
    /// What the system says of it.
    pub word: Option<Text>,
    /// Whether it is a file where a folder is wanted.
    pub is_file: bool,
}

impl Place {
    /// This path, if it is known, of which the system says nothing.
    pub fn at(path: Option<Text>) -> Place {
        Place {
            path,
            word: None,
            is_file: false,
        }
    }

    /// Nothing is known.
    pub fn nowhere() -> Place {
        Place::at(None)
    }

    // What can't be read for this reason. Where there is no memory for the word of the system, it is left out.
    fn unread(alloc: Global, path: Option<Text>, why: Unread) -> Place {
        Place {
            path,
            word: why.word(alloc),
            is_file: why.is_file,
        }
    }
}

// The place of what is lost, if its path is known.
pub fn loss_place(alloc: Global, path: Option<Text>, cause: Cause) -> Place {
    match cause {
        Cause::Unread(why) => Place::unread(alloc, path, why),
        Cause::BadName | Cause::TooLong => Place::at(path),
    }
}

// The path of the pattern of a ticket: the name of its collection, `/` and its own.
fn path_of(alloc: Global, bundle: &Bundle, ticket: Ticket) -> Option<Text> {
    let pattern = bundle.entry(ticket)?;
    let at = (ticket.folder as usize).checked_sub(1)?;
    let collection = bundle.folders().get(at)?;
    let mut path = collection.name.as_slice().to_vec(alloc).ok()?;
    path.extend_from_slice(b"/").ok()?;
    path.extend_from_slice(pattern.name.as_slice()).ok()?;
    Text::of(alloc, path.as_slice()).ok()
}

// The place of the pattern of a bundle at which memory ran out, or nowhere.
pub fn pattern_place(alloc: Global, bundle: &Bundle, fault: RunFault) -> Place {
    match fault {
        RunFault::Memory {
            ticket: Some(ticket),
        } => Place::at(path_of(alloc, bundle, ticket)),
        _ => Place::nowhere(),
    }
}

// The number of the pattern of a ticket and that of its collection. It takes no memory.
fn numbers_of(alloc: Global, ticket: Ticket) -> Option<Text> {
    let mut numbers = ArrayString::<NUMBERS_LIMIT>::new();
    let mut buffer = Buffer::new();
    numbers.push_str("pattern ");
    numbers.push_str(buffer.format(ticket.number));
    numbers.push_str(" of collection ");
    numbers.push_str(buffer.format(ticket.folder));
    Text::of(alloc, numbers.as_str().as_bytes()).ok()
}

/// The place of an error of a census whose patterns have no path, or that continues past what can't be read: the number of the
/// pattern at which memory ran out and that of its collection, where they are known, otherwise nowhere. It takes no memory.
pub fn kept_place(alloc: Global, error: RunError) -> Place {
    match error {
        RunError::Memory {
            ticket: Some(ticket),
        } => Place::at(numbers_of(alloc, ticket)),
        _ => Place::nowhere(),
    }
}

/// What is known of the file of `advance`, which is named in any case: what the system says of it, where it can't be read.
pub fn file_place(alloc: Global, error: AdvanceError) -> Place {
    match error {
        AdvanceError::Read(why) => Place {
            path: None,
            word: why.word(alloc),
            is_file: false,
        },
        _ => Place::nowhere(),
    }
}
