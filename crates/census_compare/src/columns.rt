//! The columns of claims.
ghost use Rattle.std.specs.Prelude.{◌≡◌, IfOk, find, nat_eq};
ghost use Rattle.std.specs.Char.{is_ascii_digit};
ghost use Rattle.std.specs.Cmp.Lexicographic.{pointwise};
ghost use Rattle.std.specs.List.{list_all};
ghost use Rattle.census_table.specs.Columns.{name_of};
ghost use Rattle.census_compare.specs.Claims.{title_read};
ghost use Rattle.census_compare.specs.Columns.{claimable, column_of, fits, has_form, is_compared, is_listed, is_name, is_number, is_signed, title_of, trimmed};
ghost use Rattle.census_compare.specs.Numbers.{NumbersMayBeClaimed};

use census_table::Column;
use std::alloc::{AllocError, Global};

/// A title of a header, without white space at its ends, and the column that it names, if a claim may have it.
#[derive(Drop)]
pub struct Title {
    pub text: Vec<u8>,
    pub column: Option<Column>,
}

// Another name of the column of codes, as it is usual elsewhere.
const OTHER_NAME: &[u8] = b"apgcode";

// The columns that a claim may have.
const CLAIMABLE: [Column; 12] = [
    Column::Name,
    Column::CollectionName,
    Column::Status,
    Column::Rule,
    Column::Population,
    Column::Onset,
    Column::Period,
    Column::Dx,
    Column::Dy,
    Column::Code,
    Column::Objects,
    Column::Engines,
];

// The one of these columns that has this name.
fn column_in(columns: &[Column], title: &[u8]) -> Option<Column>
    ensures { result ≡ find (λ column. pointwise nat_eq title.now (name_of column)) columns.now }
{
    for column in columns {
        if title == column.name().as_bytes() {
            return Some(*column);
        }
    }
    None
}

// The column that has this name, if a claim may have it.
fn column_of(title: &[u8]) -> Option<Column>
    ensures { result ≡ column_of title.now }
{
    if title == OTHER_NAME {
        return Some(Column::Code);
    }
    column_in(&CLAIMABLE, title)
}

// A text without the white space at its ends.
fn trimmed(text: &[u8]) -> &[u8]
    ensures { result.now ≡ trimmed text.now }
{
    text.trim_ascii()
}

/// The title in a cell of a header. The only error is out of memory.
pub fn title_of(alloc: Global, cell: &[u8]) -> Result<Title, AllocError>
    ensures { IfOk result (λ title. title_read title ≡ title_of cell.now) }
{
    let name = trimmed(cell);
    let text = Vec::from_slice(alloc, name)?;
    let column = column_of(name);
    Ok(Title { text, column })
}

/// Whether what is claimed in a column is compared. A name says which pattern is meant.
pub fn is_compared(column: &Option<Column>) -> bool
    ensures { result ≡ is_compared column.now }
{
    match column {
        None | Some(Column::Name | Column::CollectionName) => false,
        Some(_) => true,
    }
}

/// Whether a column is compared, or if `compared` is not set, whether its cells are passed over.
pub fn is_listed(compared: bool, column: &Option<Column>) -> bool
    ensures { result ≡ is_listed compared column.now }
{
    if compared {
        is_compared(column)
    } else {
        column.is_none()
    }
}

/// Whether the column has the names of patterns.
pub fn is_name(column: &Option<Column>) -> bool
    ensures { result ≡ is_name column.now }
{
    match column {
        Some(Column::Name) => true,
        _ => false,
    }
}

// Whether all bytes are digits.
fn are_digits(text: &[u8]) -> bool
    ensures { result ≡ list_all is_ascii_digit text.now }
{
    text.iter().all(|byte| byte.is_ascii_digit())
}

// Whether a text is a number without a sign, as a table has it.
fn is_number(text: &[u8]) -> bool
    ensures { result ≡ is_number text.now }
{
    match text {
        [b'0', rest @ ..] => rest.is_empty(),
        [_, ..] => are_digits(text),
        [] => false,
    }
}

// Whether a text is a number that may have a `-`, as a table has it.
fn is_signed(text: &[u8]) -> bool
    ensures { result ≡ is_signed text.now }
{
    match text {
        [b'-', rest @ ..] => is_number(rest) && rest != b"0".as_slice(),
        _ => is_number(text),
    }
}

// Whether a cell that is not empty is allowed in a column.
fn has_form(column: &Option<Column>, cell: &[u8]) -> bool
    ensures { result ≡ has_form column.now cell.now }
{
    match column {
        Some(
            Column::Population | Column::Onset | Column::Period | Column::Objects | Column::Engines,
        ) => is_number(cell),
        Some(Column::Dx | Column::Dy) => is_signed(cell),
        _ => true,
    }
}

/// Whether a cell is allowed in a column: a column of numbers takes numbers, as a table has them, or nothing.
pub fn fits(column: &Option<Column>, cell: &[u8]) -> bool
    ensures { result ≡ fits column.now cell.now }
{
    cell.is_empty() || has_form(column, cell)
}

/// Each number that a table may have can be claimed as the table has it.
pub fn numbers_may_be_claimed()
    ensures { NumbersMayBeClaimed }
{}
