//! Watched readers and writers that end, fail, stop or go on without end, and bytes that do not fit into a block.

use std::alloc::{AllocError, Global};
use std::io;
use std::io::{ErrorKind, Read, Write};
use std::test::Fail;
use watched::{Block, Failed, Input, Output, ReadFault, put, put_all, read_all, send};

/// Gives its bytes one at a time, fails once they are gone, and counts the calls.
#[derive(Drop)]
pub(crate) struct FailingReader<'a> {
    left: &'a [u8],
    calls: usize,
}

impl<'a> FailingReader<'a> {
    pub(crate) fn after(bytes: &'a [u8]) -> FailingReader<'a> {
        FailingReader {
            left: bytes,
            calls: 0,
        }
    }
}

impl<'a> Read for FailingReader<'a> {
    fn read(&mut self, buffer: &mut [u8]) -> io::Result<usize> {
        self.calls = self.calls.saturating_add(1);
        if self.left.is_empty() {
            return Err(io::Error::from(ErrorKind::ConnectionReset));
        }
        let most = buffer.len().min(1);
        self.left.read(&mut buffer[..most])
    }
}

/// Takes a limited number of bytes at a time, fails once its room is full, and counts the calls.
#[derive(Drop)]
pub(crate) struct FailingWriter {
    pub(crate) written: Vec<u8>,
    room: usize,
    at_once: usize,
    calls: usize,
}

impl FailingWriter {
    pub(crate) fn after(alloc: Global, room: usize, at_once: usize) -> FailingWriter {
        FailingWriter {
            written: Vec::new(alloc),
            room,
            at_once,
            calls: 0,
        }
    }
}

impl Write for FailingWriter {
    fn write(&mut self, bytes: &[u8]) -> io::Result<usize> {
        self.calls = self.calls.saturating_add(1);
        let left = self.room.saturating_sub(self.written.len());
        if left == 0 {
            return Err(io::Error::from(ErrorKind::BrokenPipe));
        }
        let most = bytes.len().min(left).min(self.at_once);
        self.written.extend_from_slice(&bytes[..most])?;
        Ok(most)
    }

    fn flush(&mut self) -> io::Result<()> {
        Ok(())
    }
}

/// Passes every second call on to the reader or writer that it holds, one byte at a time. A signal interrupts the others.
#[derive(Drop)]
struct Interrupted<T> {
    inner: T,
    next_passes: bool,
}

impl<T> Interrupted<T> {
    fn of(inner: T) -> Interrupted<T> {
        Interrupted {
            inner,
            next_passes: false,
        }
    }

    // True where this call is interrupted.
    fn interrupt(&mut self) -> bool {
        self.next_passes = !self.next_passes;
        self.next_passes
    }
}

impl<R: Read> Read for Interrupted<R> {
    fn read(&mut self, buffer: &mut [u8]) -> io::Result<usize> {
        if self.interrupt() {
            return Err(io::Error::from(ErrorKind::Interrupted));
        }
        let most = buffer.len().min(1);
        self.inner.read(&mut buffer[..most])
    }
}

impl<W: Write> Write for Interrupted<W> {
    fn write(&mut self, bytes: &[u8]) -> io::Result<usize> {
        if self.interrupt() {
            return Err(io::Error::from(ErrorKind::Interrupted));
        }
        let most = bytes.len().min(1);
        self.inner.write(&bytes[..most])
    }

    fn flush(&mut self) -> io::Result<()> {
        Ok(())
    }
}

const TEXT: &[u8] = b"x = 3, y = 3";

#[test]
fn calls_that_a_signal_interrupts_are_made_again(rt: HostRuntime) -> Result<(), Fail> {
    let mut reader = Input::new(Interrupted::of(TEXT));
    let bytes = read_all(rt.alloc(), &mut reader, 100)?;
    assert!(rt; bytes.as_slice() == TEXT && !reader.failed());
    let mut writer = Output::new(Interrupted::of(Vec::new(rt.alloc())));
    assert!(rt; put_all(&mut writer, TEXT).is_ok() && !writer.failed());
    assert!(rt; writer.into_inner().inner.as_slice() == TEXT);
    Ok(())
}

// Bytes of which none equals the byte 65,536 places before it.
fn many(alloc: Global, count: u32) -> Result<Vec<u8>, AllocError> {
    (0..count).map(|i| (i % 251) as u8).collect(alloc)
}

// True where a text is read whole with this limit of bytes.
fn is_read(alloc: Global, text: &[u8], limit: usize) -> Result<bool, ReadFault> {
    let mut reader = Input::new(text);
    let bytes = read_all(alloc, &mut reader, limit)?;
    Ok(bytes.as_slice() == text && !reader.failed())
}

#[test]
fn as_many_bytes_as_the_limit_are_read(rt: HostRuntime) -> Result<(), Fail> {
    assert!(rt; is_read(rt.alloc(), b"abcd", 4)? && is_read(rt.alloc(), b"", 0)?);
    assert!(rt; is_read(rt.alloc(), &many(rt.alloc(), 20_000)?, usize::MAX)?);
    assert!(rt; is_read(rt.alloc(), b"abcde", 4) == Err(ReadFault::TooLong));
    let mut endless = Input::new(io::repeat(b'@'));
    let fault = read_all(rt.alloc(), &mut endless, 20_000).err();
    assert!(rt; fault == Some(ReadFault::TooLong) && !endless.failed());
    Ok(())
}

#[test]
fn a_reader_that_failed_is_not_called_again(rt: HostRuntime) -> Result<(), Fail> {
    for k in 0..TEXT.len() {
        let mut reader = Input::new(FailingReader::after(&TEXT[..k]));
        for _ in 0..2 {
            let fault = read_all(rt.alloc(), &mut reader, 100).err();
            assert!(rt; fault == Some(ReadFault::Read) && reader.failed());
        }
        assert!(rt; reader.get(&mut [0; 4]) == Err(Failed));
        assert!(rt; reader.into_inner().calls == k + 1);
    }
    Ok(())
}

#[test]
fn a_writer_that_failed_is_not_called_again(rt: HostRuntime) -> Result<(), Fail> {
    for k in 0..TEXT.len() {
        let mut writer = Output::new(FailingWriter::after(rt.alloc(), k, 1));
        for bytes in [TEXT, TEXT, b""] {
            assert!(rt; put_all(&mut writer, bytes) == Err(Failed) && writer.failed());
        }
        assert!(rt; writer.put(TEXT) == Err(Failed));
        let inner = writer.into_inner();
        assert!(rt; inner.written.as_slice() == &TEXT[..k] && inner.calls == k + 1);
    }
    Ok(())
}

#[test]
fn a_write_that_takes_nothing_is_a_failure(rt: HostRuntime) -> Result<(), Fail> {
    let mut room = [0u8; 3];
    let mut writer = Output::new(&mut room[..]);
    assert!(rt; put_all(&mut writer, b"abcd") == Err(Failed) && writer.failed());
    assert!(rt; room.as_slice() == b"abc".as_slice());
    Ok(())
}

#[test]
fn a_call_that_succeeds_raises_no_flag(rt: HostRuntime) -> Result<(), Fail> {
    let text: &[u8] = b"abc";
    let mut reader = Input::new(text);
    let mut buffer = [b'-'; 5];
    assert!(rt; reader.get(&mut buffer) == Ok(3) && buffer.as_slice() == b"abc--".as_slice());
    assert!(rt; reader.get(&mut buffer) == Ok(0) && !reader.failed());
    let mut writer = Output::new(Vec::new(rt.alloc()));
    assert!(rt; writer.put(text) == Ok(3) && !writer.failed());
    assert!(rt; writer.into_inner().as_slice() == text);
    Ok(())
}

const BEFORE: &[u8] = b"first ";

const AFTER: &[u8] = b" last";

// Writes these bytes between two short texts, through one block.
fn put_between<W: Write>(
    alloc: Global,
    bytes: &[u8],
    writer: &mut Output<W>,
) -> Result<(), Failed> {
    let mut block = Block::new(alloc);
    put(BEFORE, &mut block, writer);
    put(bytes, &mut block, writer);
    put(AFTER, &mut block, writer);
    send(&mut block, writer)
}

#[test]
fn more_than_a_block_holds_is_written_in_order(rt: HostRuntime) -> Result<(), Fail> {
    let bytes = many(rt.alloc(), 70_001)?;
    let mut text = Vec::from_slice(rt.alloc(), BEFORE)?;
    text.extend_from_slice(bytes.as_slice())?;
    text.extend_from_slice(AFTER)?;
    let mut writer = Output::new(Vec::new(rt.alloc()));
    assert!(rt; put_between(rt.alloc(), &bytes, &mut writer).is_ok() && !writer.failed());
    assert!(rt; writer.into_inner().as_slice() == text.as_slice());
    for room in [0, 6, 65_536, 70_007, 70_011] {
        let mut writer = Output::new(FailingWriter::after(rt.alloc(), room, room));
        assert!(rt; put_between(rt.alloc(), &bytes, &mut writer).is_err() && writer.failed());
        let written = writer.into_inner().written;
        assert!(rt; written.len() == room && text.starts_with(written.as_slice()));
    }
    Ok(())
}
