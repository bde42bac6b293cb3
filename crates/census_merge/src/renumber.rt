//! Rows under another number of their collection.
ghost use Rattle.std.specs.Prelude.{◌≡◌, ◌≤◌};
ghost use Rattle.census_merge.specs.Kept.{numbered};
ghost use Rattle.census_merge.specs.Merged.{renumbered_row};
ghost use Rattle.census_readback.specs.Steps.{collection_of};
ghost use Rattle.census_readback.specs.Limits.{count_limit};

use census_readback::collection_of;
use census_rows::Row;

/// A row with this number for its collection.
pub fn numbered<'a>(number: u64, mut row: Row<'a>) -> Row<'a>
    ensures { result ≡ numbered number row.entry }
{
    match &mut row {
        Row::Open { collection, .. } => *collection = number,
        Row::Line { collection, .. } => *collection = number,
        Row::Part { collection, .. } => *collection = number,
        Row::Engine { collection, .. } => *collection = number,
        Row::Emits { collection, .. } => *collection = number,
        Row::Code { collection, .. } => *collection = number,
        Row::Close { collection, .. } => *collection = number,
        Row::End { .. } => {}
    }
    row
}

/// A row, where `before` collections come before those of its report.
pub fn renumbered_row<'a>(before: u64, row: Row<'a>) -> Row<'a>
    requires { before ≤ count_limit }
    ensures { collection_of row.entry ≤ count_limit → result ≡ renumbered_row before row.entry }
{
    let collection = collection_of(&row);
    numbered(collection.saturating_add(before), row)
}
