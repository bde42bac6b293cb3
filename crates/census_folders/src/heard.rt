//! The content of a file, or of standard input.
ghost use Rattle.std.specs.Prelude.{◌≡◌, ◌+◌, ◌≤◌, [], map, IfErr, IfOk, vec_len};
ghost use Rattle.watched.specs.Watching.{ConsumesAtMost};
ghost use Rattle.census_folders.specs.Hearing.{Hears, HearsFile, HearsInput, heard_of, is_input, words_or_input};
ghost use Rattle.census_folders.specs.Told.{GivesTold, RefusesFile};

use crate::bytes::Bytes;
use crate::shelf::Shelf;
use crate::unread::ShelfFault;
use census_bundle::{INPUT_LIMIT, Text};
use std::alloc::{AllocError, Global};
use std::io::Read;
use watched::{Input, ReadFault, read_all};

/// The content of a file, or of standard input.
#[derive(Drop)]
pub enum Heard {
    /// All its bytes.
    Text(Bytes),
    /// It has more bytes than a text may have.
    TooLong,
    /// It can't be read.
    Unread {
        /// The system's message, where it is known and there is memory for it.
        word: Option<Text>,
    },
}

// The content, by the result of a reading. Out of memory remains an error.
fn heard_of(read: Result<Vec<u8>, ReadFault>) -> Result<Heard, AllocError>
    ensures { result ≡ heard_of read }
{
    match read {
        Ok(bytes) => Ok(Heard::Text(Bytes::new(bytes))),
        Err(ReadFault::TooLong) => Ok(Heard::TooLong),
        Err(ReadFault::Read) => Ok(Heard::Unread { word: None }),
        Err(ReadFault::Memory) => Err(AllocError),
    }
}

/// The bytes of the file with this path, of which there may be at most 67,108,864. It may be anything that can be read, such as
/// a pipe.
pub fn read_file<S: Shelf>(shelf: &S, alloc: Global, path: &[u8]) -> Result<Vec<u8>, ShelfFault>
    ensures within { IfOk result (λ bytes. vec_len bytes ≤ INPUT_LIMIT) }
    ensures told { IfOk result
        (λ bytes. GivesTold ((S.tellings shelf.now).held [] path.now) bytes.items) }
    ensures fault { IfErr result
        (RefusesFile INPUT_LIMIT ((S.tellings shelf.now).held [] path.now)) }
{
    shelf.read_named(alloc, path, INPUT_LIMIT)
}

fn hear_file<S: Shelf>(shelf: &S, alloc: Global, path: &[u8]) -> Result<Heard, AllocError>
    ensures { IfOk result (HearsFile ((S.tellings shelf.now).held [] path.now)) }
{
    match read_file(shelf, alloc, path) {
        Ok(bytes) => Ok(Heard::Text(Bytes::new(bytes))),
        Err(ShelfFault::TooLong) => Ok(Heard::TooLong),
        Err(ShelfFault::Unread(why)) => Ok(Heard::Unread {
            word: why.word(alloc),
        }),
        Err(ShelfFault::Memory) => Err(AllocError),
    }
}

fn hear_input<I: Read>(alloc: Global, input: &mut Input<I>) -> Result<Heard, AllocError>
    ensures heard { IfOk result
        (λ heard. HearsInput heard input.old.stream input.new.stream) }
    ensures taken { ConsumesAtMost (INPUT_LIMIT + 1)
        input.old.stream.unread input.new.stream.unread }
{
    heard_of(read_all(alloc, input, INPUT_LIMIT))
}

/// True where an argument means standard input, as `-` does. Every other argument is the path of a file.
pub fn is_input(word: &str) -> bool
    ensures { result ≡ is_input word.now }
{
    word == "-"
}

/// These arguments, or standard input alone where there are none.
pub fn words_or_input<'a, 'b>(words: &'a [&'b str]) -> &'a [&'b str]
    ensures { map (λ s. s.now) result.now ≡ words_or_input (map (λ s. s.now) words.now) }
{
    if words.is_empty() { &["-"] } else { words }
}

/// The content that an argument names: for `-`, the rest of standard input, up to its end; for any other argument, the bytes of
/// the file with this path, which may be anything that can be read. `AllocError` is returned if memory runs out.
///
/// Standard input may be read more than once, and each time gives the rest of it. The shelf may promise the content of files;
/// each is looked up by its path alone, in the folder without a name. A disk promises nothing.
pub fn hear<S: Shelf, I: Read>(
    shelf: &S,
    alloc: Global,
    word: &str,
    input: &mut Input<I>,
) -> Result<Heard, AllocError>
    ensures heard { IfOk result (λ heard. Hears ((S.tellings shelf.now).held []) word.now heard
        input.old.stream input.new.stream) }
    ensures taken { ConsumesAtMost (INPUT_LIMIT + 1)
        input.old.stream.unread input.new.stream.unread }
{
    if is_input(word) {
        hear_input(alloc, input)
    } else {
        hear_file(shelf, alloc, word.as_bytes())
    }
}
