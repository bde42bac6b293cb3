//! What a text is that is not a report.

/// What a text is that is not a report, by its first bytes.
#[derive(Clone, Copy, Debug, PartialEq, Eq, Drop)]
pub enum TextKind {
    /// It has no byte.
    Empty,
    /// Its first line ends in CR LF.
    Returns,
    /// It is compressed by gzip.
    Gzip,
    /// A bundle, which begins with `@`.
    Bundle,
    /// An RLE text, which begins with `x` or `#`.
    Pattern,
    /// It begins as a report does, or is none of these.
    Other,
}

// Whether the first line of a text ends in CR LF.
fn has_returns(text: &[u8]) -> bool {
    let first = text.split(|byte| *byte == b'\n').next();
    first.is_some_and(|line| line.len() < text.len() && line.ends_with(b"\r"))
}

/// What a text is that is not a report.
pub fn kind_of(text: &[u8]) -> TextKind {
    match text {
        [] => TextKind::Empty,
        [0x1f, 0x8b, ..] => TextKind::Gzip,
        [b'@', ..] => TextKind::Bundle,
        [b'x' | b'#', ..] => TextKind::Pattern,
        _ if has_returns(text) => TextKind::Returns,
        _ => TextKind::Other,
    }
}

/// Whether the first row of comma-separated values, where no cell is in quotes, has a column `name`.
pub fn has_names(text: &[u8]) -> bool {
    let first = text.split(|byte| *byte == b'\n').next();
    first.is_some_and(|row| {
        row.split(|byte| *byte == b',')
            .any(|cell| cell.trim_ascii() == b"name".as_slice())
    })
}
