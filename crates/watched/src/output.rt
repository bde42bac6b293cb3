//! A writer with a flag that is raised once a call of it has failed.
ghost use Rattle.std.specs.Prelude.{◌≡◌, ◌<◌, ◌≤◌, true, false, length, take, IfOk, MatchResult};
ghost use Rattle.std.specs.Io.KnownBytes.{Appends, Keeps};
ghost use Rattle.watched.specs.Streams.{PutsMoreBytes};

use crate::failed::Failed;
use crate::interrupted::write_through;
use crate::writing::put_all;
use std::io::Write;
use std::marker::Model;

/// A writer, and a flag that is raised once it has failed, and stays raised. A clause sees the bytes that were written, if
/// they are known, and the flag.
#[derive(Drop)]
pub struct Output<W: Write> {
    writer: W,
    failed: bool,
}

impl<W: Write> Model for Output<W> {
    ghost use Rattle.watched.specs.Streams.{Sink, Watched};

    ghost Value = { Watched Sink W };

    ghost view = { λ o. record {
      stream = record { written = W.contents o.writer; failed = o.failed };
      inner = o.writer;
    } };
}

impl<W: Write> Output<W> {
    /// Watches a writer, which has not failed yet.
    pub fn new(writer: W) -> Output<W>
        ensures written { result.stream.written ≡ W.contents writer }
        ensures failed { result.stream.failed ≡ false }
        ensures inner { result.inner ≡ writer }
    {
        Output {
            writer,
            failed: false,
        }
    }

    /// The writer, as the last call left it.
    pub fn into_inner(self) -> W
        ensures written { W.contents result ≡ self.stream.written }
        ensures inner { result ≡ self.inner }
    {
        let Output { writer, failed: _ } = self;
        writer
    }

    /// True where a call has failed.
    pub fn failed(&self) -> bool
        ensures { result ≡ self.now.stream.failed }
    {
        self.failed
    }

    /// Writes a prefix of the bytes, by one call of the writer, and returns the number of bytes that it took, at least 1.
    /// `Failed` is returned if the writer's call fails or takes nothing, or if one has failed before, and then nothing was
    /// written. In the last case the writer is not called. A call that a signal interrupts is repeated.
    pub fn put(&mut self, bytes: &[u8]) -> Result<usize, Failed>
        requires { 0 < length bytes.now }
        ensures failed { MatchResult result (λ _. self.new.stream.failed ≡ false)
            (λ _. self.new.stream.failed ≡ true) }
        ensures uncalled { self.old.stream.failed ≡ true → self.new ≡ self.old }
        ensures count { IfOk result (λ count. (0 < count) × (count ≤ length bytes.now)) }
        ensures bytes { MatchResult result
            (λ count. Appends self.old.stream.written self.new.stream.written (take count bytes.now))
            (λ _. Keeps self.old.stream.written self.new.stream.written) }
    {
        if self.failed {
            return Err(Failed);
        }
        match write_through(&mut self.writer, bytes) {
            Ok(count) if count > 0 => Ok(count),
            Ok(_) | Err(_) => {
                self.failed = true;
                Err(Failed)
            }
        }
    }

    /// Writes a text, and requests no memory. If the writer fails, a prefix of the text was written; if it has failed before,
    /// the text is lost.
    pub fn tell(&mut self, text: &[u8])
        ensures { PutsMoreBytes text.now self.old.stream self.new.stream }
    {
        let _ = put_all(self, text);
    }
}
