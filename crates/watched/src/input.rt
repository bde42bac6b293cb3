//! A reader with a flag that is raised once a call of it has failed.
ghost use Rattle.std.specs.Prelude.{◌≡◌, ◌<◌, true, false, length, MatchResult};
ghost use Rattle.std.specs.Io.{ReadsAtMost};
ghost use Rattle.std.specs.Io.KnownBytes.{ReadConsumes};

use crate::failed::Failed;
use crate::interrupted::read_through;
use std::io::Read;
use std::marker::Model;

/// A reader, and a flag that is raised once it has failed, and stays raised. A clause sees the bytes that are left to read, if
/// they are known, and the flag.
#[derive(Drop)]
pub struct Input<R: Read> {
    reader: R,
    failed: bool,
}

impl<R: Read> Model for Input<R> {
    ghost use Rattle.watched.specs.Streams.{Reader, Watched};

    ghost Value = { Watched Reader R };

    ghost view = { λ i. record {
      stream = record { unread = R.remaining i.reader; failed = i.failed };
      inner = i.reader;
    } };
}

impl<R: Read> Input<R> {
    /// Watches a reader, which has not failed yet.
    pub fn new(reader: R) -> Input<R>
        ensures unread { result.stream.unread ≡ R.remaining reader }
        ensures failed { result.stream.failed ≡ false }
        ensures inner { result.inner ≡ reader }
    {
        Input {
            reader,
            failed: false,
        }
    }

    /// The reader, as the last call left it.
    pub fn into_inner(self) -> R
        ensures unread { R.remaining result ≡ self.stream.unread }
        ensures inner { result ≡ self.inner }
    {
        let Input { reader, failed: _ } = self;
        reader
    }

    /// True where a call has failed.
    pub fn failed(&self) -> bool
        ensures { result ≡ self.now.stream.failed }
    {
        self.failed
    }

    /// Reads into the front of the buffer, by one call of the reader, and returns the number of bytes read: from 0 to the
    /// buffer's length, 0 only at the reader's end. `Failed` is returned if the reader's call fails, or if one has failed before.
    /// In the second case the reader is not called. A call that a signal interrupts is repeated.
    pub fn get(&mut self, buffer: &mut [u8]) -> Result<usize, Failed>
        requires { 0 < length buffer.old }
        ensures failed { MatchResult result (λ _. self.new.stream.failed ≡ false)
            (λ _. self.new.stream.failed ≡ true) }
        ensures uncalled { self.old.stream.failed ≡ true → (self.new ≡ self.old) × (buffer.new ≡ buffer.old) }

        // The bytes come from the front of what the reader had left.
        ensures count { ReadsAtMost result buffer.new }
        ensures bytes { ReadConsumes self.old.stream.unread self.new.stream.unread result buffer.new }
    {
        if self.failed {
            return Err(Failed);
        }
        match read_through(&mut self.reader, buffer) {
            Ok(count) => Ok(count),
            Err(_) => {
                self.failed = true;
                Err(Failed)
            }
        }
    }
}
