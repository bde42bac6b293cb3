//! Reading a watched reader to its end.
ghost use Rattle.std.specs.Prelude.{◌≡◌, ◌↔◌, ◌+◌, ◌≤◌, true, IfOk, IfSome, OnOk, vec_len};
ghost use Rattle.std.specs.Io.KnownBytes.{Consumes, IsAtEnd};
ghost use Rattle.watched.specs.Watching.{ConsumesAtMost, ConsumesMoreThan};
ghost use Rattle.watched.specs.declared.reading.ReadFault.{ReadFault};

use crate::failed::Failed;
use crate::input::Input;
use std::alloc::{AllocError, Global};
use std::io::Read;
use thiserror::Error;

/// The reason why a reader was not read to its end.
#[derive(Clone, Copy, Debug, PartialEq, Eq, Drop, Error)]
pub enum ReadFault {
    /// The reader has failed.
    #[error("read failed")]
    Read,
    /// More bytes came than the limit allows.
    #[error("input too long")]
    TooLong,
    #[error("out of memory")]
    Memory,
}

impl From<Failed> for ReadFault {
    ghost use Rattle.std.specs.Prelude.{◌≡◌};
    ghost use Rattle.watched.specs.declared.reading.ReadFault.TheVariants.{Read};

    ghost from_gives = { λ _ fault. fault ≡ Read };

    fn from(_: Failed) -> ReadFault {
        ReadFault::Read
    }
}

impl From<AllocError> for ReadFault {
    ghost use Rattle.std.specs.Prelude.{◌≡◌};
    ghost use Rattle.watched.specs.declared.reading.ReadFault.TheVariants.{Memory};

    ghost from_gives = { λ _ fault. fault ≡ Memory };

    fn from(_: AllocError) -> ReadFault {
        ReadFault::Memory
    }
}

/// The greatest number of bytes that one call of the reader may give.
const BUFFER_LEN: usize = 8192;

/// Reads all the bytes up to the reader's end, of which there may be at most `limit`.
///
/// `Read` is returned exactly if the reader has failed on return; if it had failed before, it is not called. `TooLong` is
/// returned once a byte after the limit has come. After each fault the bytes that came are lost. No more than `limit` + 1 bytes
/// are ever taken from the reader.
pub fn read_all<R: Read>(
    alloc: Global,
    reader: &mut Input<R>,
    limit: usize,
) -> Result<Vec<u8>, ReadFault>
    ensures failed { (result ≡ Err ReadFault.Read) ↔ (reader.new.stream.failed ≡ true) }
    ensures uncalled { reader.old.stream.failed ≡ true → reader.new ≡ reader.old }

    // All the bytes up to the end.
    ensures within { IfOk result (λ bytes. vec_len bytes ≤ limit) }
    ensures bytes { IfOk result
        (λ bytes. Consumes reader.old.stream.unread reader.new.stream.unread
        bytes.items) }
    ensures end { OnOk result (IsAtEnd reader.new.stream.unread) }
    ensures whole { IfOk result
        (λ bytes. IfSome reader.old.stream.unread (λ all. bytes.items ≡ all)) }

    ensures too_long { result ≡ Err ReadFault.TooLong
        → ConsumesMoreThan limit reader.old.stream.unread
        reader.new.stream.unread }
    ensures taken { ConsumesAtMost (limit + 1) reader.old.stream.unread
        reader.new.stream.unread }
{
    if reader.failed() {
        return Err(ReadFault::Read);
    }
    let mut bytes = Vec::new(alloc);
    let mut buffer = [0u8; BUFFER_LEN];
    loop {
        let room = limit - bytes.len();
        // One byte after the limit shows that there are too many.
        let most = room.min(BUFFER_LEN - 1) + 1;
        let count = reader.get(&mut buffer[..most])?;
        if count == 0 {
            return Ok(bytes);
        }
        if count > room {
            return Err(ReadFault::TooLong);
        }
        bytes.extend_from_slice(&buffer[..count])?;
    }
}
