//! Names, shortened for a line that has to fit into one line of a terminal.
use crate::shown::is_steering;
use std::fmt;

/// The greatest number of columns of a name.
pub(crate) const LONGEST: usize = 40;

/// A name as it is shown at a terminal in at most `columns` columns: for a long one its end, after three dots. Characters that
/// could control the terminal are escaped as by `Shown`, and so are a line feed and a tab.
#[derive(Drop)]
pub(crate) struct ShortName<'a> {
    pub(crate) name: &'a [u8],
    pub(crate) columns: usize,
}

// True where a character is shown as its escaped bytes.
fn is_escaped(one: char) -> bool {
    one == '\n' || one == '\t' || is_steering(one)
}

// The number of columns of an escaped byte.
const ESCAPED: usize = 4;

// An upper bound of the number of columns of a character, escaped or not: none has more columns than bytes.
fn columns_of(one: char) -> usize {
    let bytes = one.len_utf8();
    if is_escaped(one) {
        bytes.saturating_mul(ESCAPED)
    } else {
        bytes
    }
}

// An upper bound of the number of columns of a name.
fn columns(name: &[u8]) -> usize {
    let mut all: usize = 0;
    for chunk in name.utf8_chunks() {
        for one in chunk.valid().chars() {
            all = all.saturating_add(columns_of(one));
        }
        all = all.saturating_add(chunk.invalid().len().saturating_mul(ESCAPED));
    }
    all
}

// Writes bytes as `\x` and two digits each.
fn write_bytes<W: fmt::Write>(bytes: &[u8], f: &mut fmt::Formatter<W>) -> fmt::Result {
    for byte in bytes {
        write!(f, "\\x{byte:02x}")?;
    }
    Ok(())
}

// Writes a character.
fn write_char<W: fmt::Write>(one: char, f: &mut fmt::Formatter<W>) -> fmt::Result {
    if is_escaped(one) {
        let mut room = [0; 4];
        return write_bytes(one.encode_utf8(&mut room).as_bytes(), f);
    }
    write!(f, "{one}")
}

// Writes a name without the characters in its first `skipped` columns.
fn write_end<W: fmt::Write>(name: &[u8], skipped: usize, f: &mut fmt::Formatter<W>) -> fmt::Result {
    let mut at: usize = 0;
    for chunk in name.utf8_chunks() {
        for one in chunk.valid().chars() {
            if at >= skipped {
                write_char(one, f)?;
            }
            at = at.saturating_add(columns_of(one));
        }
        for byte in chunk.invalid() {
            if at >= skipped {
                write_bytes(&[*byte], f)?;
            }
            at = at.saturating_add(ESCAPED);
        }
    }
    Ok(())
}

impl<'a> fmt::Display for ShortName<'a> {
    fn fmt<W: fmt::Write>(&self, f: &mut fmt::Formatter<W>) -> fmt::Result {
        let all = columns(self.name);
        if all <= self.columns {
            return write_end(self.name, 0, f);
        }
        write!(f, "...")?;
        let skipped = all.saturating_sub(self.columns.saturating_sub(3));
        write_end(self.name, skipped, f)
    }
}
