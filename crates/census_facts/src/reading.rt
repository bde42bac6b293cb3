//! Names, read from lines.
ghost use Rattle.std.specs.Prelude.{◌≡◌, ◌∷◌, ◌<◌, [], Err, IfOk, IfSome, length, map, if◌then◌else◌};
ghost use Rattle.std.specs.List.{after_first, before_first, slice_split};
ghost use Rattle.std.specs.Option.{option_map_or};
ghost use Rattle.std.specs.Result.{result_map_both};
ghost use Rattle.census_facts.specs.NameLines.{content, is_line_feed, is_passed_over, is_tab, names_in, with_line};

use crate::names::Names;
use memchr::memchr;
use std::alloc::{AllocError, Global};

// The line before the first LF, and the text after that byte, if there is one.
fn split_line(text: &[u8]) -> (&[u8], Option<&[u8]>)
    ensures parts { slice_split is_line_feed text.now
        ≡ result.0.now ∷ option_map_or (λ rest. slice_split is_line_feed rest.now) result.1 [] }
    ensures shorter { IfSome result.1 (λ rest. length rest.now < length text.now) }
{
    match memchr(b'\n', text) {
        Some(at) => (&text[..at], Some(&text[at + 1..])),
        None => (text, None),
    }
}

// A line without the CR that it may end with.
fn content(line: &[u8]) -> &[u8]
    ensures { result.now ≡ content line.now }
{
    if line.ends_with(b"\r") {
        return &line[..line.len() - 1];
    }
    line
}

// True where a line is empty or a comment.
fn is_passed_over(line: &[u8]) -> bool
    ensures { result ≡ is_passed_over line.now }
{
    line.is_empty() || line.starts_with(b"#")
}

// The parts of a line before and after its first tab. Without a tab, the second part is empty.
fn split_entry(line: &[u8]) -> (&[u8], &[u8])
    ensures code { result.0.now ≡ before_first is_tab line.now }
    ensures name { result.1.now ≡ after_first is_tab line.now }
{
    match memchr(b'\t', line) {
        Some(at) => (&line[..at], &line[at + 1..]),
        None => (line, b""),
    }
}

// Adds the name that a line gives to a code. Returns true if the line is passed over, or its name was added.
fn take_line(names: &mut Names, alloc: Global, line: &[u8]) -> Result<bool, AllocError>
    ensures { IfOk result (λ goes_on. with_line names.old line.now
        ≡ (if goes_on then Some names.new else None)) }
{
    if is_passed_over(line) {
        return Ok(true);
    }
    let (code, name) = split_entry(line);
    names.add(alloc, code, name)
}

/// The names of a text. Each line has a code, a tab and its name. A line that begins with `#` is a comment, and an
/// empty line is passed over. A CR at the end of a line is not part of it, further tabs are part of the name, and the
/// end of the text also ends the last line.
///
/// `Err` has the number, from 1, of the first other line that has no tab, has nothing before or after its first tab, or
/// has the code of an earlier line. The only error is out of memory.
pub fn read_names(alloc: Global, text: &[u8]) -> Result<Result<Names, usize>, AllocError>
    ensures { IfOk result
        (λ read. result_map_both (λ names. names) (λ line. line) read ≡ names_in text.now) }
{
    let mut names = Names::none(alloc);
    let mut number = 1;
    let mut left = Some(text);
    while let Some(rest) = left {
        let (line, behind) = split_line(rest);
        if !take_line(&mut names, alloc, content(line))? {
            return Ok(Err(number));
        }
        number += 1;
        left = behind;
    }
    Ok(Ok(names))
}
