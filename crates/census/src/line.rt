//! The line that shows the progress of a run.
use crate::short_name::{LONGEST, ShortName};
use arrayvec::ArrayString;
use std::fmt;
use std::fmt::Write;

/// The greatest number of columns of the line.
const WIDTH: usize = 80;

/// A name is left out where it would have fewer columns.
const SHORTEST: usize = 8;

/// A line of text.
pub(crate) type Line = ArrayString<256>;

// A number, with commas between groups of three digits.
#[derive(Drop)]
struct Grouped(u64);

impl fmt::Display for Grouped {
    fn fmt<W: fmt::Write>(&self, f: &mut fmt::Formatter<W>) -> fmt::Result {
        let mut digits = ArrayString::<20>::new();
        write!(digits, "{}", self.0)?;
        let mut left = digits.len();
        for digit in digits.as_str().chars() {
            if left < digits.len() && left % 3 == 0 {
                write!(f, ",")?;
            }
            write!(f, "{digit}")?;
            left = left.saturating_sub(1);
        }
        Ok(())
    }
}

// Seconds, rounded as people say them: in seconds, minutes or hours.
#[derive(Drop)]
struct RoughTime(u64);

impl fmt::Display for RoughTime {
    fn fmt<W: fmt::Write>(&self, f: &mut fmt::Formatter<W>) -> fmt::Result {
        let seconds = self.0;
        let minutes = seconds.saturating_add(30) / 60;
        if seconds < 90 {
            write!(f, "{seconds} s")
        } else if minutes < 90 {
            write!(f, "{minutes} min")
        } else {
            write!(f, "{} h", Grouped(minutes.saturating_add(30) / 60))
        }
    }
}

/// Writes the beginning of the line: the number of patterns that are finished, and the time that is left, if it is known.
pub(crate) fn write_head(
    line: &mut Line,
    finished: u64,
    patterns: u64,
    seconds: Option<u64>,
) -> fmt::Result {
    write!(
        line,
        "census: {} of {} patterns",
        Grouped(finished),
        Grouped(patterns)
    )?;
    if let Some(seconds) = seconds {
        write!(line, ", {} left", RoughTime(seconds))?;
    }
    Ok(())
}

/// Writes the rest of the line: a pattern, and the generation that it has reached. A long name is cut, so that the line has at
/// most `WIDTH` columns.
pub(crate) fn write_pattern(line: &mut Line, name: &[u8], generation: u64) -> fmt::Result {
    let mut end = ArrayString::<48>::new();
    write!(end, ", generation {}", Grouped(generation))?;
    let columns = WIDTH
        .saturating_sub(line.len())
        .saturating_sub(2)
        .saturating_sub(end.len())
        .min(LONGEST);
    if columns < SHORTEST {
        return Ok(());
    }
    write!(line, "; {}{}", ShortName { name, columns }, end)
}
