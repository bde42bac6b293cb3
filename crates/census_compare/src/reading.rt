//! Claims, read from comma-separated values.
ghost use Rattle.std.specs.Prelude.{◌≡◌, IfOk, OnOk, MatchResult, drop, map};
ghost use Rattle.std.specs.Result.{result_map_both};
ghost use Rattle.census_compare.specs.Claims.{all_read, claims_in, first_fault, header_in, title_read};
ghost use Rattle.census_compare.specs.Read.{HasLines, rows_left};
ghost use Rattle.census_compare.specs.Rows.{rows_of};

use crate::claim::claim_in;
use crate::columns::Title;
use crate::rows::{Reader, TextRow};
use crate::titles::{are_titles, titles_of};
use std::alloc::{AllocError, Global};

/// The claims about patterns that a text makes, in the order of its rows, and the titles of their columns. No claim is held: each
/// is read again where it is needed.
#[derive(Drop)]
pub struct Claims<'a> {
    pub titles: Vec<Title>,
    pub text: &'a [u8],
}

impl<'a> Claims<'a> {
    /// The rows behind the header.
    pub fn rows(&self, alloc: Global) -> Result<Reader<'a>, AllocError>
        ensures rows { IfOk result (λ rows. rows_left rows ≡ drop 1 (rows_of self.now.text.now)) }
        ensures lines { IfOk result HasLines }
    {
        let mut rows = Reader::of(self.text);
        rows.next(alloc)?;
        Ok(rows)
    }
}

// The titles of the first row, or the line of a faulty one, which is the first where there is no row.
fn read_header(alloc: Global, rows: &mut Reader) -> Result<Result<Vec<Title>, usize>, AllocError>
    requires { HasLines rows.old }
    ensures titles { IfOk result (λ read. result_map_both (λ titles. map title_read titles.items) (λ line. line) read
        ≡ header_in (rows_left rows.old)) }
    ensures rows { OnOk result (rows_left rows.new ≡ drop 1 (rows_left rows.old)) }
    ensures lines { OnOk result (HasLines rows.new) }
{
    match rows.next(alloc)? {
        None => Ok(Err(1)),
        Some(TextRow::Broken(line)) => Ok(Err(line)),
        Some(TextRow::Whole(line, cells)) => {
            let titles = titles_of(alloc, cells.as_slice())?;
            if are_titles(titles.as_slice()) {
                Ok(Ok(titles))
            } else {
                Ok(Err(line))
            }
        }
    }
}

// The line of the first row that is no claim, if there is one.
fn first_fault(alloc: Global, titles: &[Title], rows: Reader) -> Result<Option<usize>, AllocError>
    requires { HasLines rows }
    ensures { IfOk result (λ line. line ≡ first_fault (map title_read titles.now) (rows_left rows.entry)) }
{
    let mut rows = rows;
    while let Some(row) = rows.next(alloc)? {
        let line = row.line();
        if claim_in(alloc, titles, row)?.is_none() {
            return Ok(Some(line));
        }
    }
    Ok(None)
}

/// What a text claims: comma-separated values as RFC 4180 has them, which may begin with the byte order mark of UTF-8. A cell
/// may be in quotes. Rows end with LF or CR LF, and the last one may end with the text.
///
/// The first row is the header. It has a column `name`, and the others may have the names that tables of patterns have:
/// `collection_name`, `status`, `rule`, `population`, `onset`, `period`, `dx`, `dy`, `code` (or `apgcode`), `objects` and
/// `engines`, without the white space at their ends. The cells of other columns are passed over, and an empty cell claims
/// nothing. If several columns are called `name` or `collection_name`, the last one counts. Numbers are written as tables have
/// them.
///
/// `Err` has the number, from 1, of the line on which the first faulty row begins. A row is faulty if it is no row of such a
/// text, has more or fewer cells than the header, or has text other than a number in a column of numbers. The header is faulty
/// if it has no column `name`, or none of the others but `collection_name`. The number is 1 if there is no header. One row is
/// held at a time. The only error is out of memory.
pub fn read_claims<'a>(
    alloc: Global,
    text: &'a [u8],
) -> Result<Result<Claims<'a>, usize>, AllocError>
    ensures { IfOk result
        (λ read. result_map_both all_read (λ line. line) read ≡ claims_in text.now) }
{
    let mut rows = Reader::of(text);
    let titles = match read_header(alloc, &mut rows)? {
        Ok(titles) => titles,
        Err(line) => return Ok(Err(line)),
    };
    match first_fault(alloc, titles.as_slice(), rows)? {
        Some(line) => Ok(Err(line)),
        None => Ok(Ok(Claims { titles, text })),
    }
}
