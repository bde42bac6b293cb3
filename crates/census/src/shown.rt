//! Output to a terminal, which no name can control.
ghost use Rattle.std.specs.Prelude.{◌≡◌, None, if◌then◌else◌};

use crate::screen::Screen;
use arrayvec::ArrayVec;
use std::io;
use std::io::{Eprint, Write};
use std::time::Clock;

/// The greatest number of bytes that are passed on at once.
const ROOM: usize = 4096;

const DIGITS: [u8; 16] = *b"0123456789abcdef";

/// A writer that first wipes the progress that a screen shows. Where it is a terminal, each byte that belongs to no character
/// of UTF-8, and each byte of a character that could control the terminal, is written as `\x` and its two hexadecimal digits;
/// every other byte is written unchanged. Such characters are the controls below U+0020 except the tab and the line feed, and
/// those from U+007F to U+009F; those that change the direction of text (U+061C, U+200E, U+200F, U+202A to U+202E, U+2066 to
/// U+2069); and the separators of lines and paragraphs (U+2028, U+2029). Where it is not a terminal, its contents are those of
/// the writer below it.
#[derive(Drop)]
pub struct Shown<'a, W, R> {
    writer: W,
    is_terminal: bool,
    screen: &'a Screen<'a, R>,
}

/// Bytes that are held, to be passed on together.
type Block = ArrayVec<u8, ROOM>;

// Writes the bytes that are held.
fn hand_on<W: Write>(block: &mut Block, writer: &mut W) -> io::Result<()> {
    writer.write_all(block.as_slice())?;
    block.clear();
    Ok(())
}

// Adds bytes. Where there is no room for one, those that are held are written first.
fn add<W: Write>(block: &mut Block, writer: &mut W, bytes: &[u8]) -> io::Result<()> {
    for byte in bytes {
        if block.is_full() {
            hand_on(block, writer)?;
        }
        let _ = block.try_push(*byte);
    }
    Ok(())
}

// Adds bytes as `\x` and two digits each.
fn add_escaped<W: Write>(block: &mut Block, writer: &mut W, bytes: &[u8]) -> io::Result<()> {
    for byte in bytes {
        let high = DIGITS[(*byte / 16) as usize];
        let low = DIGITS[(*byte % 16) as usize];
        add(block, writer, &[b'\\', b'x', high, low])?;
    }
    Ok(())
}

// True where a terminal could take a character for a command, for a change of the text's direction, or for the end of a line
// though it is not a line feed.
pub(crate) fn is_steering(one: char) -> bool {
    matches!(
        one,
        '\0'..='\u{8}'
            | '\u{b}'..='\u{1f}'
            | '\u{7f}'..='\u{9f}'
            | '\u{61c}'
            | '\u{200e}'
            | '\u{200f}'
            | '\u{2028}'..='\u{202e}'
            | '\u{2066}'..='\u{2069}'
    )
}

impl<'a, W: Write, R: Clock + Eprint> Shown<'a, W, R> {
    /// A writer to a terminal, or, where it is not a terminal, one that passes on each byte unchanged.
    pub fn new(writer: W, is_terminal: bool, screen: &'a Screen<'a, R>) -> Self
        ensures terminal { result.is_terminal ≡ is_terminal }
        ensures contents { W.contents result.writer ≡ W.contents writer }
    {
        Shown {
            writer,
            is_terminal,
            screen,
        }
    }
}

// Writes bytes, and escapes those that could control a terminal.
fn write_escaped<W: Write>(writer: &mut W, bytes: &[u8]) -> io::Result<()> {
    let mut block = Block::new();
    for chunk in bytes.utf8_chunks() {
        for one in chunk.valid().chars() {
            let mut room = [0; 4];
            let encoded = one.encode_utf8(&mut room);
            if is_steering(one) {
                add_escaped(&mut block, writer, encoded.as_bytes())?;
            } else {
                add(&mut block, writer, encoded.as_bytes())?;
            }
        }
        add_escaped(&mut block, writer, chunk.invalid())?;
    }
    hand_on(&mut block, writer)
}

impl<'a, W: Write, R: Clock + Eprint> Write for Shown<'a, W, R> {
    ghost contents = { λ s. if s.is_terminal then None else W.contents s.writer };

    fn write(&mut self, bytes: &[u8]) -> io::Result<usize> {
        self.screen.wipe();
        if !self.is_terminal {
            return self.writer.write(bytes);
        }
        write_escaped(&mut self.writer, bytes)?;
        Ok(bytes.len())
    }

    fn flush(&mut self) -> io::Result<()> {
        self.writer.flush()
    }
}
