//! The report on each argument.
ghost use Rattle.std.specs.Prelude.{◌≡◌, ◌≤◌, IfOk};
ghost use Rattle.std.specs.Option.{option_copied};
ghost use Rattle.census_identify.specs.Blocks.Blocks.{block_of};
ghost use Rattle.census_identify.specs.Telling.{IsTold, IsToldOfText, file_of, message_line, unread_message};

use crate::blocks::{BlockText, HORIZON_LIMIT, Inquiry, block};
use census_bundle::Text;
use census_facts::Names;
use census_faults::fault_line;
use census_folders::{Bytes, Heard, is_input};
use life_orbit::BOUND_LIMIT;
use life_plane::Observer;
use std::alloc::{AllocError, Global};

/// The report on one text.
#[derive(Drop)]
pub enum Told {
    /// The block of a pattern, for standard output.
    Block(BlockText),
    /// A line, for standard error.
    Line {
        /// Its bytes.
        line: Bytes,
        /// The exit status that it requires.
        status: u8,
    },
}

// The line `census: WORD:`, the message, and LF.
fn message_line(alloc: Global, word: &str, message: &[u8]) -> Result<Bytes, AllocError>
    ensures { IfOk result (λ line. line ≡ message_line word.now message.now) }
{
    let mut line = Vec::new(alloc);
    line.extend_from_slice(b"census: ")?;
    line.extend_from_slice(word.as_bytes())?;
    line.extend_from_slice(b":")?;
    line.extend_from_slice(message)?;
    line.extend_from_slice(b"\n")?;
    Ok(Bytes::new(line))
}

// The message about a text that can't be read: the system's, or `read failed` where the system gives none.
fn unread_message(alloc: Global, reason: &Option<Text>) -> Result<Vec<u8>, AllocError>
    ensures { IfOk result (λ message. message.items ≡ unread_message reason.now) }
{
    let mut message = Vec::new(alloc);
    message.extend_from_slice(b" ")?;
    match reason {
        Some(reason) => message.extend_from_slice(reason.as_slice())?,
        None => message.extend_from_slice(b"read failed")?,
    }
    Ok(message)
}

// The file that an argument names, where it doesn't mean standard input.
fn file_of(word: &str) -> Option<&[u8]>
    ensures { option_copied result ≡ file_of word.now }
{
    if is_input(word) {
        return None;
    }
    Some(word.as_bytes())
}

// The report on a text.
fn told_of_text<W: Observer>(
    alloc: Global,
    observer: &W,
    names: &Names,
    word: &str,
    text: &[u8],
    inquiry: Inquiry,
) -> Result<Told, AllocError>
    requires bound { 1 ≤ inquiry.bound × inquiry.bound ≤ BOUND_LIMIT }
    requires horizon { 1 ≤ inquiry.horizon × inquiry.horizon ≤ HORIZON_LIMIT }
    ensures { IfOk result (IsToldOfText word.now (block_of inquiry names.now (file_of word.now) text.now)) }
{
    match block(alloc, observer, names, file_of(word), text, inquiry)? {
        Ok(block) => Ok(Told::Block(block)),
        Err(fault) => Ok(Told::Line {
            line: message_line(alloc, word, fault_line(alloc, text, &fault)?.as_slice())?,
            status: 1,
        }),
    }
}

/// The report on an argument, by the content that was read. The bound is 1 to 100,000 generations, and the horizon 1 to 10,000.
/// `AllocError` is returned if memory runs out.
///
/// For a text that means a pattern it is its block, which names the file too where the argument isn't `-`. For any other text
/// it is the line `census: WORD:LINE:COLUMN: WORDS (rle fault N at A)`, with status 1; for one that is too long, the line
/// `census: WORD: input too long`, with status 1; and for one that can't be read, the line `census: WORD: REASON`, or where the
/// system gives no reason `census: WORD: read failed`, with status 4. The argument is written as it is. The generations that
/// are examined are reported to an observer.
pub fn told_of<W: Observer>(
    alloc: Global,
    observer: &W,
    names: &Names,
    word: &str,
    heard: &Heard,
    inquiry: Inquiry,
) -> Result<Told, AllocError>
    requires bound { 1 ≤ inquiry.bound × inquiry.bound ≤ BOUND_LIMIT }
    requires horizon { 1 ≤ inquiry.horizon × inquiry.horizon ≤ HORIZON_LIMIT }
    ensures { IfOk result (IsTold inquiry names.now word.now heard.now) }
{
    match heard {
        Heard::Text(text) => told_of_text(alloc, observer, names, word, text.as_slice(), inquiry),
        Heard::TooLong => Ok(Told::Line {
            line: message_line(alloc, word, b" input too long")?,
            status: 1,
        }),
        Heard::Unread { word: reason } => Ok(Told::Line {
            line: message_line(alloc, word, unread_message(alloc, reason)?.as_slice())?,
            status: 4,
        }),
    }
}
