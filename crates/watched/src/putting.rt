//! Writing through a block.
ghost use Rattle.std.specs.Prelude.{◌≡◌, [], true, false, MatchResult};
ghost use Rattle.watched.specs.Telling.{TellsAfter, pending_of, sheet};

use crate::block::Block;
use crate::{Failed, Output, put_all};
use itoa::{Buffer, Integer};
use std::io::Write;

/// Writes the bytes of the block, which is empty afterwards.
pub fn send<W: Write>(block: &mut Block, writer: &mut Output<W>) -> Result<(), Failed>
    ensures tells { TellsAfter [] (sheet block.old writer.old)
        (sheet block.new writer.new) }
    ensures empty { pending_of block.new ≡ [] }
    ensures failed { MatchResult result (λ _. writer.new.stream.failed ≡ false)
        (λ _. writer.new.stream.failed ≡ true) }
{
    let sent = put_all(writer, block.as_slice());
    block.clear();
    sent
}

// Writes the bytes of the block, then these.
fn put_behind<W: Write>(bytes: &[u8], block: &mut Block, writer: &mut Output<W>)
    ensures { TellsAfter bytes.now (sheet block.old writer.old)
        (sheet block.new writer.new) }
{
    let _ = send(block, writer);
    let _ = put_all(writer, bytes);
}

/// Puts these bytes in the block, or writes the block and these bytes after it. No more memory is requested than a block has,
/// and if that is refused the bytes are written at once. To a writer that has failed nothing is written.
pub fn put<W: Write>(bytes: &[u8], block: &mut Block, writer: &mut Output<W>)
    ensures { TellsAfter bytes.now (sheet block.old writer.old)
        (sheet block.new writer.new) }
{
    if !block.takes(bytes) {
        put_behind(bytes, block, writer);
    }
}

/// Puts the decimal text of a number, as `put` does.
pub fn put_number<I: Integer, W: Write>(number: I, block: &mut Block, writer: &mut Output<W>)
    ensures { TellsAfter (I.text number) (sheet block.old writer.old)
        (sheet block.new writer.new) }
{
    let mut buffer = Buffer::new();
    put(buffer.format(number).as_bytes(), block, writer);
}
