//! Texts that were cut, mended.
ghost use Rattle.std.specs.Prelude.{◌≡◌, ◌+◌, List, None, IfOk, MatchOption, MatchResult};
ghost use Rattle.census_rows.specs.declared.row.Row.{Row};
ghost use Rattle.census_readback.specs.Reports.{IsFault, ReadsAsReports};
ghost use Rattle.census_merge.specs.Feeds.{feeds};
ghost use Rattle.census_merge.specs.Mended.{IsBroken, IsCutTo, IsMended};

use crate::counted::{count_close, count_open};
use crate::feeds::feeds;
use crate::kept::kept_rows;
use crate::lines::read_front;
use crate::written::text_of;
use census_readback::fault_of;
use std::alloc::{AllocError, Global};

/// Where a text was cut, and how much of it is kept.
#[derive(Clone, Copy, Debug, PartialEq, Eq)]
pub struct Cut {
    /// How many whole lines it has.
    pub line: usize,
    /// How many collections are closed, in all its reports.
    pub kept: u64,
    /// How many are open at its end.
    pub left: u64,
}

/// A text that is a report, or several one after another; and where the text that it was made of was cut, if it was.
#[derive(Drop)]
pub struct Mended {
    pub text: Vec<u8>,
    pub cut: Option<Cut>,
}

// Mends a text that was cut.
fn mend_cut(alloc: Global, text: &[u8]) -> Result<(Vec<u8>, Cut), AllocError>
    requires { IsFault text.now (feeds text.now + 1) }
    ensures { IfOk result (λ mended. IsCutTo text.now mended.0.items mended.1) }
{
    let front = read_front(alloc, text)?;
    let rows = front.rows.as_slice();
    let kept = kept_rows(alloc, rows)?;
    let (opened, closed) = (count_open(rows), count_close(rows));
    let cut = Cut {
        line: feeds(text),
        kept: closed as u64,
        left: opened.saturating_sub(closed) as u64,
    };
    Ok((text_of(alloc, kept.as_slice())?, cut))
}

// A copy of these bytes.
fn copied(alloc: Global, text: &[u8]) -> Result<Vec<u8>, AllocError>
    ensures { IfOk result (λ copy. copy.items ≡ text.now) }
{
    let mut copy = Vec::new(alloc);
    copy.extend_from_slice(text)?;
    Ok(copy)
}

/// Mends a text that was cut. Whole reports stay as they are. Of the report after them, what comes after the last whole line is
/// left out, and so are the collections that are open. Those that are closed are numbered from 1 on, in the order of their
/// numbers, and an `end` line is added after them. A text that is a report, or several, stays as it is. A text without a byte
/// was cut before its first line.
///
/// `Err` has the line of the fault, as `fault_of` returns it, if the text is none of these: a whole line is no row, or may not
/// be where it is, or says what no report says there.
pub fn mend(alloc: Global, text: &[u8]) -> Result<Result<Mended, usize>, AllocError>
    ensures sound { IfOk result (λ read. MatchResult read
        (λ mended. IsMended text.now mended)
        (λ line. IsBroken text.now line)) }
    ensures whole { (rows : List Row) → ReadsAsReports rows text.now
        → IfOk result (λ read. MatchResult read (λ mended. mended.cut ≡ None) (λ line. ⊥)) }
{
    let Some(line) = fault_of(alloc, text)? else {
        return Ok(Ok(Mended {
            text: copied(alloc, text)?,
            cut: None,
        }));
    };
    if line != feeds(text) + 1 {
        return Ok(Err(line));
    }
    let (text, cut) = mend_cut(alloc, text)?;
    Ok(Ok(Mended {
        text,
        cut: Some(cut),
    }))
}
