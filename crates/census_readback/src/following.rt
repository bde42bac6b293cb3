//! The rows after a `line` row.
ghost use Rattle.std.specs.Prelude.{◌≡◌, ◌≤◌, length};
ghost use Rattle.std.specs.List.{prefix_len, take_while};
ghost use Rattle.census_readback.specs.Following.{is_emits, rows_behind, stands_behind};

use crate::place::same_behind;
use census_rows::{Behind, Row, Section};

// Whether a row belongs after a line that is followed by rows of this kind.
fn stands_behind(kind: Behind, row: &Row) -> bool
    ensures { result ≡ stands_behind kind row.now }
{
    match row {
        Row::Part { .. } => same_behind(kind, Behind::Parts),
        Row::Engine { .. } => same_behind(kind, Behind::Engines),
        Row::Emits { .. } => same_behind(kind, Behind::Engines),
        _ => false,
    }
}

// How many rows, from the first on, belong after such a line.
fn count_behind(kind: Behind, rows: &Section) -> usize
    ensures value { result ≡ prefix_len (stands_behind kind) rows.now }
    ensures within { result ≤ length rows.now }
{
    for index in 0..rows.len() {
        if !stands_behind(kind, &rows.row(index)) {
            return index;
        }
    }
    rows.len()
}

/// The rows, from the first on, that belong after a line that is followed by rows of this kind.
pub fn rows_behind<'b, 'a>(kind: Behind, rows: &Section<'b, 'a>) -> Section<'b, 'a>
    ensures { result ≡ rows_behind kind rows.now }
{
    rows.before(count_behind(kind, rows))
}

// Whether a row says what an engine emits.
fn is_emits(row: &Row) -> bool
    ensures { result ≡ is_emits row.now }
{
    match row {
        Row::Emits { .. } => true,
        _ => false,
    }
}

// How many rows, from the first on, say what an engine emits.
fn count_emits(rows: &Section) -> usize
    ensures value { result ≡ prefix_len is_emits rows.now }
    ensures within { result ≤ length rows.now }
{
    for index in 0..rows.len() {
        if !is_emits(&rows.row(index)) {
            return index;
        }
    }
    rows.len()
}

/// The rows, from the first on, that say what an engine emits.
pub fn emits_first<'b, 'a>(rows: &Section<'b, 'a>) -> Section<'b, 'a>
    ensures { result ≡ take_while is_emits rows.now }
{
    rows.before(count_emits(rows))
}
