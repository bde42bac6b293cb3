//! Readers, writers and standard streams that fail.

use crate::program::called;
use std::alloc::Global;
use std::io;
use std::io::{ErrorKind, Read, Write};

/// Gives its bytes, and fails once they are gone.
#[derive(Drop)]
pub(crate) struct FailingReader<'a> {
    pub(crate) left: &'a [u8],
}

impl<'a> Read for FailingReader<'a> {
    fn read(&mut self, buffer: &mut [u8]) -> io::Result<usize> {
        if self.left.is_empty() {
            return Err(io::Error::from(ErrorKind::ConnectionReset));
        }
        self.left.read(buffer)
    }
}

/// Takes a limited number of bytes at a time, and fails once its room is full.
#[derive(Drop)]
pub(crate) struct FailingWriter {
    pub(crate) written: Vec<u8>,
    room: usize,
    at_once: usize,
}

impl FailingWriter {
    pub(crate) fn after(alloc: Global, room: usize, at_once: usize) -> FailingWriter {
        FailingWriter {
            written: Vec::new(alloc),
            room,
            at_once,
        }
    }
}

impl Write for FailingWriter {
    fn write(&mut self, bytes: &[u8]) -> io::Result<usize> {
        let left = self.room.saturating_sub(self.written.len());
        if left == 0 {
            return Err(io::Error::from(ErrorKind::BrokenPipe));
        }
        let most = bytes.len().min(left).min(self.at_once);
        self.written.extend_from_slice(&bytes[..most])?;
        Ok(most)
    }

    fn flush(&mut self) -> io::Result<()> {
        Ok(())
    }
}

#[test]
fn standard_streams_that_fail(rt: HostRuntime) {
    // The arguments, the room of standard output and of standard error, the status, and the text on standard error.
    const CALLS: &[(&[&str], usize, usize, u8, &[u8])] = &[
        (&["run"], 0, 0, 4, b""),
        (&["draw", "A"], 0, 0, 1, b""),
        (&["draw"], 0, 0, 2, b""),
        (&["draw", "xq4_153"], 10, 100, 4, b"census: write failed\n"),
        (&["--help"], 10, 100, 4, b"census: write failed\n"),
        (&["merge"], 10, 100, 4, b"census: read failed\n"),
    ];
    for (words, output_room, errors_room, wanted, told) in CALLS {
        let ends = (
            FailingReader { left: b"" },
            FailingWriter::after(rt.alloc(), *output_room, *output_room),
            FailingWriter::after(rt.alloc(), *errors_room, *errors_room),
        );
        let (status, _, errors) = called(&rt, rt.alloc(), words, ends);
        assert!(rt;
            status == *wanted && errors.written.as_slice() == *told,
            "{words:?}"
        );
    }
}
