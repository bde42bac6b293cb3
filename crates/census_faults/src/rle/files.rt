//! Files of patterns that are not RLE texts.

/// The kind of a text without a header line, by its first bytes.
#[derive(Clone, Copy, Debug, PartialEq, Eq, Drop)]
pub enum FileKind {
    /// A file compressed by gzip, such as `.rle.gz` or `.mc.gz`.
    Gzip,
    /// A macrocell file, which begins with `[M2]`.
    Macrocell,
    /// A file of the format Life 1.05 or Life 1.06, which begins with `#Life`.
    OldLife,
    /// A drawing in `.` and `O`, which begins with `!Name`.
    Plaintext,
    /// A text with a byte order mark before its first line.
    ByteOrderMark,
    /// None of these.
    Other,
}

/// The kind of a text without a header line, by its first bytes.
pub fn file_kind(text: &[u8]) -> FileKind {
    if text.starts_with(b"\x1f\x8b") {
        FileKind::Gzip
    } else if text.starts_with(b"[M2]") {
        FileKind::Macrocell
    } else if text.starts_with(b"#Life") {
        FileKind::OldLife
    } else if text.starts_with(b"!Name") {
        FileKind::Plaintext
    } else if text.starts_with(b"\xef\xbb\xbf") {
        FileKind::ByteOrderMark
    } else {
        FileKind::Other
    }
}
