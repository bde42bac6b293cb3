//! The lines of a bundle text.
ghost use Rattle.std.specs.Prelude.{◌≡◌, ◌+◌, ◌<◌, ◌≤◌, ◌∷◌, ◌++◌, true, length};
ghost use Rattle.std.specs.List.{list_all};
ghost use Rattle.texts.specs.Bytes.{is_space};
ghost use Rattle.census_bundle.specs.Lines.{whole_lines, content};
ghost use Rattle.census_bundle.specs.Kinds.{IsLineKind};
ghost use Rattle.census_bundle.specs.Scan.{line_len, begins_section, IsTextOf};

use memchr::memchr;

// The kind of a line.
#[derive(Clone, Copy)]
pub enum Line<'a> {
    // The line begins a folder of this name.
    Folder(&'a [u8]),
    // The line begins an entry of this name.
    File(&'a [u8]),
    // The line begins neither, though its first byte is `@`.
    OtherAt,
    // The line has another first byte, or none.
    Plain,
}

// The text of an entry, its number of lines, and the rest after it.
#[derive(Clone, Copy)]
pub struct EntryText<'a> {
    pub text: &'a [u8],
    pub lines: usize,
    pub rest: &'a [u8],
}

// The length of the first line, with its ending.
fn line_len(text: &[u8]) -> usize
    ensures value { result ≡ line_len text.now }
    ensures within { result ≤ length text.now }
{
    match memchr(b'\n', text) {
        Some(at) => at + 1,
        None => text.len(),
    }
}

// The first line with its ending, and the rest after it.
pub fn split_line(text: &[u8]) -> (&[u8], &[u8])
    requires { 0 < length text.now }
    ensures lines { whole_lines text.now ≡ result.0.now ∷ whole_lines result.1.now }
    ensures whole { text.now ≡ result.0.now ++ result.1.now }
    ensures some { 0 < length result.0.now }
{
    text.split_at(line_len(text))
}

// The line without its LF or CR LF.
fn without_ending(line: &[u8]) -> &[u8]
    ensures { result.now ≡ content line.now }
{
    if line.ends_with(b"\r\n") {
        return &line[..line.len() - 2];
    }
    if line.ends_with(b"\n") {
        return &line[..line.len() - 1];
    }
    line
}

// True where a line has nothing but blanks, tabs and CR.
pub fn is_blank(line: &[u8]) -> bool
    ensures { result ≡ list_all is_space line.now }
{
    line.iter().all(|byte| *byte == b' ' || *byte == b'\t' || *byte == b'\r' || *byte == b'\n')
}

// The kind of a line.
pub fn line_of(line: &[u8]) -> Line
    ensures { IsLineKind line.now result }
{
    if line.starts_with(b"@folder ") {
        return Line::Folder(without_ending(&line[8..]));
    }
    if line.starts_with(b"@file ") {
        return Line::File(without_ending(&line[6..]));
    }
    if line.starts_with(b"@") {
        Line::OtherAt
    } else {
        Line::Plain
    }
}

// True where nothing is left, or the first line begins with `@`.
fn begins_section(rest: &[u8]) -> bool
    ensures { result ≡ begins_section rest.now }
{
    rest.is_empty() || rest.starts_with(b"@")
}

// The lines up to the next that begins with `@`, or up to the end.
pub fn split_text(whole: &[u8]) -> EntryText
    ensures text { IsTextOf whole.now (record {
      text = result.text.now;
      lines = result.lines;
      rest = result.rest.now;
    }) }
    ensures ends { begins_section result.rest.now ≡ true }
    ensures fits { result.lines + length result.rest.now ≤ length whole.now }
{
    let mut len = 0;
    let mut lines = 0;
    while !begins_section(&whole[len..]) {
        len += line_len(&whole[len..]);
        lines += 1;
    }
    EntryText {
        text: &whole[..len],
        lines,
        rest: &whole[len..],
    }
}
